// Makes the calls on summaries of a stored list, its standard input, and prints a line of what came of each. vectors/README.md has both forms.
#![tactic(auto)]

use replay::{Answer, ByteSource, Digest, List};
use std::alloc::AllocError;
use std::io::Write;
use std::{fmt, io};

// The most bytes of a file and of a summary.
const ROOM: usize = 65536;

// The record that a lookup found, if any.
#[derive(Clone, Copy)]
struct Found(Option<usize>);

impl fmt::Display for Found {
    fn fmt<W: fmt::Write>(&self, f: &mut fmt::Formatter<W>) -> fmt::Result {
        match self.0 {
            Some(record) => write!(f, " found=1 record={record}"),
            None => write!(f, " found=0 record=0"),
        }
    }
}

// A file and a summary: the list has both lengths, and then the bytes of each.
fn file_and_summary<S: ByteSource>(list: &mut List<S>) -> io::Result<(Vec<u8>, Vec<u8>)> {
    let mut file = list.buffer(ROOM)?;
    let mut summary = list.buffer(ROOM)?;
    list.fill(&mut file);
    list.fill(&mut summary);
    Ok((file, summary))
}

fn build<S: ByteSource, W: Write + Drop>(list: &mut List<S>, out: &mut W) -> io::Result<()> {
    let (file, mut summary) = file_and_summary(list)?;
    let form = shift_file::form_of(&file);
    let answer = Answer(summary_calls::build_summary(form, &file, &mut summary));
    let digest = Digest(&summary);
    write!(out, "{answer} summary={digest}")
}

fn check<S: ByteSource, W: Write + Drop>(list: &mut List<S>, out: &mut W) -> io::Result<()> {
    let (file, summary) = file_and_summary(list)?;
    let form = shift_file::form_of(&file);
    let verdict = summary_calls::check_summary(form, &file, &summary);
    let answer = Answer(verdict.map(|_| ()));
    let yes = u8::from(verdict.unwrap_or(false));
    write!(out, "{answer} yes={yes}")
}

fn find<S: ByteSource, W: Write + Drop>(list: &mut List<S>, out: &mut W) -> io::Result<()> {
    let mut file = list.buffer(ROOM)?;
    let mut summary = list.buffer(ROOM)?;
    let crossing = list.number();
    list.fill(&mut file);
    list.fill(&mut summary);
    let form = shift_file::form_of(&file);
    let finding = summary_calls::find_record(form, &file, &summary, crossing);
    let answer = Answer(finding.map(|_| ()));
    let found = Found(finding.unwrap_or(None));
    write!(out, "{answer}{found}")
}

fn update<S: ByteSource, W: Write + Drop>(list: &mut List<S>, out: &mut W) -> io::Result<()> {
    let mut file = list.buffer(ROOM)?;
    let mut added = list.buffer(ROOM)?;
    let mut summary = list.buffer(ROOM)?;
    list.fill(&mut file);
    list.fill(&mut added);
    list.fill(&mut summary);
    let form = shift_file::form_of(&file);
    let answer = Answer(summary_update::update_summary(form, &file, &added, &mut summary));
    let digest = Digest(&summary);
    write!(out, "{answer} summary={digest}")
}

// The stored list says which call it is by a number: here the number becomes the call. An enum of the calls, made of it first, would be no plainer.
fn call<S: ByteSource, W: Write + Drop>(list: &mut List<S>, out: &mut W) -> io::Result<()> {
    match list.number() {
        0 => build(list, out),
        1 => check(list, out),
        3 => update(list, out),
        _ => find(list, out),
    }
}

fn main(rt: HostRuntime) -> Result<(), AllocError> {
    replay::passed_over(replay::over_streams_as_read(
        rt.alloc(),
        rt.reader(),
        replay::Lossy(io::writer(&rt)),
        call,
    ))
}
