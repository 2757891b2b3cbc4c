// Converts the convoys of a stored list, its standard input, and prints a line of what came of each. vectors/README.md has both forms.
#![tactic(auto)]

use replay::{ByteSource, List, Planes};
use std::alloc::AllocError;
use std::io;
use std::io::Write;

// The most bytes of a buffer.
const ROOM: usize = 65536;

// The most numbers that a convoy of the list lends, those of 65 frames: of descriptions, of kr and kb, of parts.
const NUMBERS: usize = 1040;

const CUSTOMS: usize = 130;

const PARTS: usize = 520;

// What the frames of a convoy are, as numbers.
#[derive(Drop)]
struct Convoy {
    count: usize,
    numbers: Vec<u32>,
    customs: Vec<f32>,
    parts: Vec<u64>,
}

fn read_convoy<S: ByteSource>(list: &mut List<S>) -> Result<Convoy, AllocError> {
    let count = list.wide() as usize;
    let numbers_room = list.room(NUMBERS);
    let customs_room = list.room(CUSTOMS);
    let parts_room = list.room(PARTS);
    let mut numbers = vec![in list.alloc; 0u32; numbers_room]?;
    let mut customs = vec![in list.alloc; 0f32; customs_room]?;
    let mut parts = vec![in list.alloc; 0u64; parts_room]?;
    list.row(&mut numbers, |list| list.number());
    list.row(&mut customs, |list| list.float());
    list.row(&mut parts, |list| list.wide());
    Ok(Convoy {
        count,
        numbers,
        customs,
        parts,
    })
}

fn convert<W: Write + Drop>(
    convoy: &Convoy,
    source: &[u8],
    planes: &mut Planes,
    out: &mut W,
) -> io::Result<()> {
    let mut told = [0usize; 3];
    let number = convoy_calls::call_convoy(
        convoy.count,
        &convoy.numbers,
        &convoy.customs,
        &convoy.parts,
        source,
        &mut planes.y,
        &mut planes.u,
        &mut planes.v,
        &mut told,
    );
    let [expected, received, done] = told;
    write!(out, " {number} {expected} {received} done={done}")
}

fn call<S: ByteSource, W: Write + Drop>(list: &mut List<S>, out: &mut W) -> io::Result<()> {
    let mut source = list.buffer(ROOM)?;
    let mut planes = list.planes(ROOM)?;
    let convoy = read_convoy(list)?;
    list.fill(&mut source);
    list.fill_planes(&mut planes);
    convert(&convoy, &source, &mut planes, out)?;
    write!(out, "{planes}")
}

fn main(rt: HostRuntime) -> Result<(), AllocError> {
    replay::passed_over(replay::over_streams_as_read(
        rt.alloc(),
        rt.reader(),
        replay::Lossy(io::writer(&rt)),
        call,
    ))
}
