// Makes the openings and band calls of a stored list, its standard input, and prints a line of what came of each. vectors/README.md has
// both forms.
#![tactic(auto)]

use band_calls::{FrameAnswer, FrameState};
use replay::{Answer, ByteSource, Digest, List, Planes};
use std::alloc::AllocError;
use std::io::{BufWriter, Write};
use std::{fmt, io};

// The most bytes of a source, and the bytes of each plane and of the carried row, which a sequence keeps from call to call.
const SOURCE: usize = 4096;

const ROOM: usize = 256;

#[derive(Clone, Copy)]
struct Answered(FrameAnswer);

impl fmt::Display for Answered {
    fn fmt<W: fmt::Write>(&self, f: &mut fmt::Formatter<W>) -> fmt::Result {
        let answer = Answer(self.0.answer);
        let done = self.0.state.done;
        write!(f, "{answer} done={done}")
    }
}

fn read_state<S: ByteSource>(list: &mut List<S>) -> FrameState {
    FrameState {
        frame: list.frame(),
        done: list.number(),
    }
}

// Makes a call on as much of each buffer as it is lent.
fn make<S: ByteSource>(
    list: &mut List<S>,
    planes: &mut Planes,
    carried: &mut [u8],
) -> Result<FrameAnswer, AllocError> {
    let mut source = list.buffer(SOURCE)?;
    let state = read_state(list);
    let rows = list.number();
    let stride = list.number();
    let y_length = list.room(planes.y.len());
    let u_length = list.room(planes.u.len());
    let v_length = list.room(planes.v.len());
    let carried_length = list.room(carried.len());
    list.fill(&mut source);
    Ok(state.band(
        rows,
        &source,
        stride,
        &mut planes.y[..y_length],
        &mut planes.u[..u_length],
        &mut planes.v[..v_length],
        &mut carried[..carried_length],
    ))
}

fn call<S: ByteSource, W: Write + Drop>(
    list: &mut List<S>,
    planes: &mut Planes,
    carried: &mut [u8],
    out: &mut W,
) -> io::Result<()> {
    let answered = Answered(make(list, planes, carried)?);
    let row = Digest(carried);
    writeln!(out, "{answered}{planes} carried={row}")?;
    out.flush()
}

// The opening, and the calls after it, all on the same buffers.
fn sequence<S: ByteSource, W: Write + Drop>(
    sequence: u32,
    list: &mut List<S>,
    out: &mut W,
) -> io::Result<()> {
    let opened = Answered(FrameState::open(list.frame()));
    writeln!(out, "{sequence}{opened}")?;
    out.flush()?;
    let mut planes = Planes::new(list.alloc, ROOM)?;
    let mut carried = vec![in list.alloc; 0u8; ROOM]?;
    list.fill_planes(&mut planes);
    list.fill(&mut carried);
    replay::each(list, out, |place, list, out| {
        // Who gives the list part by part has the numbers of a call before it is read, and its line before the next one is.
        write!(out, "{sequence}.{place}")?;
        out.flush()?;
        call(list, &mut planes, &mut carried, out)
    })
}

// The program replay_desk has such a main too. One function for both, of which `over_streams_as_read` would be a case, was tried in three ways that the check
// does not cover: a closure that moves its call into `replay::replay_as_read`, `replay::each` handed on as it is, and a closure's parameter of a function's
// type.
fn sequences(rt: &HostRuntime) -> io::Result<()> {
    let alloc = rt.alloc();
    let mut list = replay::list_of(alloc, rt.reader())?;
    let mut out = BufWriter::new(alloc, replay::Lossy(io::writer(rt)))?;
    replay::each(
        &mut list,
        &mut out,
        |number, list, out| sequence(number, list, out),
    )?;
    list.rest.check()?;
    out.flush()
}

fn main(rt: HostRuntime) -> Result<(), AllocError> {
    replay::passed_over(sequences(&rt))
}
