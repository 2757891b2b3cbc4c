// Makes the calls on Y4M files of a stored list, its standard input, and prints a line of what came of each. vectors/README.md has both forms.
#![tactic(auto)]

use replay::{Answer, ByteSource, Left, List, Numbers};
use shift_writer::NotWritten;
use std::alloc::AllocError;
use std::io::Write;
use std::{fmt, io};
use y4m_picture::PictureFrame;
use y4m_reader::Y4mReading;
use yuv_error::YuvError;

// The most bytes of a file that is read, and of any other buffer.
const FILE: usize = 131072;

const ROOM: usize = 65536;

// The most numbers that a call of the list lends for entries, and what stands in each before the call.
const NUMBERS: usize = 36;

const BEFORE: u64 = 9;

#[derive(Clone, Copy)]
struct Reading(Result<Y4mReading, YuvError>);

impl fmt::Display for Reading {
    fn fmt<W: fmt::Write>(&self, f: &mut fmt::Formatter<W>) -> fmt::Result {
        let answer = Answer(self.0.map(|_| ()));
        let Ok(read) = self.0 else {
            return write!(f, "{answer} width=0 height=0 sampling=0 count=0 told=0");
        };
        let header = read.header;
        let sampling = u32::from(header.sampling);
        write!(
            f,
            "{answer} width={} height={}",
            header.width, header.height
        )?;
        write!(
            f,
            " sampling={sampling} count={} told={}",
            read.count, read.told
        )
    }
}

fn read<S: ByteSource, W: Write + Drop>(list: &mut List<S>, out: &mut W) -> io::Result<()> {
    let mut file = list.buffer(FILE)?;
    let first = list.wide() as usize;
    let room = list.room(NUMBERS);
    list.fill(&mut file);
    let mut entries = vec![in list.alloc; BEFORE; room]?;
    let reading = Reading(y4m_reader::read_pictures(&file, first, &mut entries));
    let entries = Numbers(&entries);
    write!(out, "{reading} entries{entries}")
}

// `replay_shift` has this too: `replay`, whose `Left` it is, takes no type of `shift_writer`.
fn left_of(written: Result<usize, NotWritten>, output: &[u8]) -> Left<'_> {
    Left {
        answer: shift_writer::outcome_of(written),
        size: shift_writer::size_of(written),
        output,
    }
}

fn write<S: ByteSource, W: Write + Drop>(list: &mut List<S>, out: &mut W) -> io::Result<()> {
    let mut pictures = list.buffer(ROOM)?;
    let mut output = [0; ROOM];
    let output = &mut output[..list.room(ROOM)];
    let width = list.number() as usize;
    let height = list.number() as usize;
    let sampling = list.number();
    list.fill(&mut pictures);
    list.fill(output);
    let written = y4m_writer::write_pictures(sampling, width, height, &pictures, output);
    let left = left_of(written, output);
    write!(out, "{left}")
}

fn read_frame<S: ByteSource>(list: &mut List<S>) -> PictureFrame {
    PictureFrame {
        width: list.number(),
        height: list.number(),
        sampling: list.number(),
        y_stride: list.number(),
        u_stride: list.number(),
        v_stride: list.number(),
    }
}

fn write_picture<S: ByteSource, W: Write + Drop>(
    list: &mut List<S>,
    out: &mut W,
) -> io::Result<()> {
    let mut planes = list.planes(ROOM)?;
    let mut output = [0; ROOM];
    let output = &mut output[..list.room(ROOM)];
    let frame = read_frame(list);
    list.fill_planes(&mut planes);
    list.fill(output);
    let written = y4m_picture::write_picture(frame, &planes.y, &planes.u, &planes.v, output);
    let left = left_of(written, output);
    write!(out, "{left}")
}

// The stored list says which call it is by a number: here the number becomes the call. An enum of the calls, made of it first, would be no plainer.
fn call<S: ByteSource, W: Write + Drop>(list: &mut List<S>, out: &mut W) -> io::Result<()> {
    match list.number() {
        0 => read(list, out),
        1 => write(list, out),
        _ => write_picture(list, out),
    }
}

fn main(rt: HostRuntime) -> Result<(), AllocError> {
    replay::passed_over(replay::over_streams_as_read(
        rt.alloc(),
        rt.reader(),
        replay::Lossy(io::writer(&rt)),
        call,
    ))
}
