// Makes the pairings of a stored list, its standard input, and prints a line of what came of each. vectors/README.md has both forms.
#![tactic(auto)]

use replay::{Answer, ByteSource, List, Numbers};
use std::alloc::AllocError;
use std::io;
use std::io::Write;
use yuv_error::YuvError;

// The most bytes of a file.
const ROOM: usize = 65536;

// What stands in each number of the report before a call.
const BEFORE: u64 = 9;

fn call<S: ByteSource, W: Write + Drop>(list: &mut List<S>, out: &mut W) -> io::Result<()> {
    // One file is on the stack and the other of the heap: for both the heap would have to grow, and all that the program takes by more than the file has.
    let mut ours = [0; ROOM];
    let ours = &mut ours[..list.room(ROOM)];
    let mut theirs = list.buffer(ROOM)?;
    list.fill(ours);
    list.fill(&mut theirs);
    let our_form = shift_file::form_of(ours);
    let their_form = shift_file::form_of(&theirs);
    let pairing = shift_pairs::pair_files(our_form, ours, their_form, &theirs);
    let mut numbers = [BEFORE; 18];
    report_numbers::tell_pairing(pairing, &mut numbers);
    let broken = pairing.err().map_or(0, u32::from);
    let answer = Answer(pairing.map(|_| ()).map_err(YuvError::from));
    let report = Numbers(&numbers);
    write!(out, "{answer} broken={broken} report{report}")
}

fn main(rt: HostRuntime) -> Result<(), AllocError> {
    replay::passed_over(replay::over_streams_as_read(
        rt.alloc(),
        rt.reader(),
        replay::Lossy(io::writer(&rt)),
        call,
    ))
}
