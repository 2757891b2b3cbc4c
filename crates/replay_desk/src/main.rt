// Makes the calls of a stored list of desk histories, its standard input, and prints a line of what came of each. vectors/README.md has both forms.
#![tactic(auto)]

ghost use Rattle.std.specs.Prelude.{◌<◌, length};

use replay::{ByteSource, Digest, List, Planes};
use std::alloc::{AllocError, Global};
use std::io::{BufWriter, Write};
use std::{fmt, io};

// What is asked of a desk; what is none of these is an offer. A delivery is no call: a camera writes bytes into the source.
const OPENING: u32 = 0;

const STEP: u32 = 2;

const DELIVERY: u32 = 3;

// The most numbers of a description that an opening of the list has.
const DESCRIBED: usize = 16;

// The bytes of the source, and those of each plane and of the carried rows.
const SOURCE: usize = 1024;

const ROOM: usize = 512;

// A desk as numbers.
#[derive(Clone, Copy)]
struct Desk {
    numbers: [u32; 609],
    customs: [f32; 64],
    parts: [u64; 320],
}

// The buffers that the cameras of a desk share.
#[derive(Drop)]
struct Buffers {
    source: Vec<u8>,
    planes: Planes,
    carried: Vec<u8>,
}

// ---- the desk before the first call: how many of a list's numbers are not 0, and of each its place and what stands there

fn place<S: ByteSource, T: Copy, F: FnMut(&mut List<S>) -> T>(
    list: &mut List<S>,
    places: &mut [T],
    mut next: F,
)
    requires some { 0 < length places.old }
    requires callable { F.IsAlwaysCallable next }
{
    let count = list.number();
    for _ in 0..count {
        let at = list.room(places.len() - 1);
        places[at] = next(list);
    }
}

fn read_desk<S: ByteSource>(list: &mut List<S>) -> Desk {
    let mut desk = Desk {
        numbers: [0; 609],
        customs: [0.0; 64],
        parts: [0; 320],
    };
    place(list, &mut desk.numbers, |list| list.number());
    place(list, &mut desk.customs, |list| list.float());
    place(list, &mut desk.parts, |list| list.wide());
    desk
}

fn read_buffers<S: ByteSource>(list: &mut List<S>) -> Result<Buffers, AllocError> {
    let mut source = vec![in list.alloc; 0u8; SOURCE]?;
    let mut planes = Planes::new(list.alloc, ROOM)?;
    let mut carried = vec![in list.alloc; 0u8; ROOM]?;
    list.fill(&mut source);
    list.fill_planes(&mut planes);
    list.fill(&mut carried);
    Ok(Buffers {
        source,
        planes,
        carried,
    })
}

// ---- what is printed

// The bits of a float; those of one NaN for each of them, which alone differ from themselves: by `is_nan` the proof did not close.
fn bits_of(custom: f32) -> u32 {
    if custom == custom {
        f32::to_bits(custom)
    } else {
        0x7FC0_0000
    }
}

// The bytes of the desk's three lists, one behind the other, low bytes first.
fn bytes_of(alloc: Global, desk: &Desk) -> Result<Vec<u8>, AllocError> {
    let mut bytes = Vec::new(alloc);
    for number in &desk.numbers {
        bytes.extend_from_slice(&number.to_le_bytes())?;
    }
    for custom in &desk.customs {
        bytes.extend_from_slice(&bits_of(*custom).to_le_bytes())?;
    }
    for part in &desk.parts {
        bytes.extend_from_slice(&part.to_le_bytes())?;
    }
    Ok(bytes)
}

impl fmt::Display for Buffers {
    fn fmt<W: fmt::Write>(&self, f: &mut fmt::Formatter<W>) -> fmt::Result {
        let planes = &self.planes;
        let carried = Digest(&self.carried);
        write!(f, "{planes} carried={carried}")
    }
}

// ---- the calls

fn open<S: ByteSource, W: Write + Drop>(
    list: &mut List<S>,
    desk: &mut Desk,
    out: &mut W,
) -> io::Result<()> {
    // Arrays of these lengths, as the calls take them; each is filled whole, and so is an offer's.
    let mut custom = [0f32; 2];
    let mut frame_parts = [0u64; 8];
    let mut lengths = [0u64; 4];
    let camera = list.number();
    list.row(&mut custom, |list| list.float());
    list.row(&mut frame_parts, |list| list.wide());
    list.row(&mut lengths, |list| list.wide());
    let count = list.room(DESCRIBED);
    let mut described = vec![in list.alloc; 0u32; count]?;
    list.row(&mut described, |list| list.number());
    let mut told = [0usize; 2];
    let number = desk_calls::call_desk_open(
        camera,
        &described,
        &custom,
        &frame_parts,
        &lengths,
        &mut desk.numbers,
        &mut desk.customs,
        &mut desk.parts,
        &mut told,
    );
    let [expected, received] = told;
    write!(out, "{number} {expected} {received}")
}

fn offer<S: ByteSource, W: Write + Drop>(
    list: &mut List<S>,
    desk: &mut Desk,
    out: &mut W,
) -> io::Result<()> {
    let mut band = [0u32; 2];
    let mut part = [0u64; 3];
    let camera = list.number();
    list.row(&mut band, |list| list.number());
    list.row(&mut part, |list| list.wide());
    let number = desk_calls::call_desk_offer(
        camera,
        &band,
        &part,
        &mut desk.numbers,
        &mut desk.customs,
        &mut desk.parts,
    );
    write!(out, "{number}")
}

// On as much of each buffer as is lent. Answers the number of the refusal.
fn make_step<S: ByteSource>(
    list: &mut List<S>,
    desk: &mut Desk,
    buffers: &mut Buffers,
    told: &mut [usize; 4],
) -> u32 {
    let source_length = list.room(buffers.source.len());
    let y_length = list.room(buffers.planes.y.len());
    let u_length = list.room(buffers.planes.u.len());
    let v_length = list.room(buffers.planes.v.len());
    let carried_length = list.room(buffers.carried.len());
    desk_steps::call_desk_step(
        &buffers.source[..source_length],
        &mut buffers.planes.y[..y_length],
        &mut buffers.planes.u[..u_length],
        &mut buffers.planes.v[..v_length],
        &mut buffers.carried[..carried_length],
        &mut desk.numbers,
        &mut desk.customs,
        &mut desk.parts,
        told,
    )
}

fn step<S: ByteSource, W: Write + Drop>(
    list: &mut List<S>,
    desk: &mut Desk,
    buffers: &mut Buffers,
    out: &mut W,
) -> io::Result<()> {
    let mut told = [0usize; 4];
    let number = make_step(list, desk, buffers, &mut told);
    let [expected, received, served, camera] = told;
    write!(
        out,
        "{number} {expected} {received} served={served} camera={camera}{buffers}"
    )
}

// Bytes of a length for the start of a part.
fn deliver<S: ByteSource>(list: &mut List<S>, source: &mut [u8]) {
    let offset = list.room(source.len());
    let part = &mut source[offset..];
    let length = list.room(part.len());
    list.fill(&mut part[..length]);
}

// Makes a call and prints its line: the numbers of the history and of the call, what the call prints, and the digest of the desk.
fn call<
    S: ByteSource,
    W: Write + Drop,
    F: FnOnce(&mut List<S>, &mut Desk, &mut W) -> io::Result<()>,
>(
    history: u32,
    place: u32,
    list: &mut List<S>,
    desk: &mut Desk,
    out: &mut W,
    make: F,
) -> io::Result<()>
    requires { F.IsAlwaysCallable make }
{
    // Who gives the list part by part has the numbers of a call before it is read, and its line before the next one is.
    write!(out, "{history}.{place} ")?;
    out.flush()?;
    make(list, desk, out)?;
    let bytes = bytes_of(list.alloc, desk)?;
    let digest = Digest(&bytes);
    writeln!(out, " desk={digest}")?;
    out.flush()
}

// The buffers, the desk, and what is asked, all of it on these. The stored list says what is asked by a number: here the number becomes the call. An enum of
// the calls, made of it first, would be no plainer.
fn history<S: ByteSource, W: Write + Drop>(
    history: u32,
    list: &mut List<S>,
    out: &mut W,
) -> io::Result<()> {
    let mut buffers = read_buffers(list)?;
    let mut desk = read_desk(list);
    replay::each(list, out, |place, list, out| match list.number() {
        OPENING => call(history, place, list, &mut desk, out, open),
        STEP => call(
            history,
            place,
            list,
            &mut desk,
            out,
            |list, desk, out| step(list, desk, &mut buffers, out),
        ),
        DELIVERY => {
            deliver(list, &mut buffers.source);
            Ok(())
        }
        _ => call(history, place, list, &mut desk, out, offer),
    })
}

// The program replay_bands has such a main too. One function for both, of which `over_streams_as_read` would be a case, was tried in three ways that the check
// does not cover: a closure that moves its call into `replay::replay_as_read`, `replay::each` handed on as it is, and a closure's parameter of a function's
// type.
fn histories(rt: &HostRuntime) -> io::Result<()> {
    let alloc = rt.alloc();
    let mut list = replay::list_of(alloc, rt.reader())?;
    let mut out = BufWriter::new(alloc, replay::Lossy(io::writer(rt)))?;
    replay::each(
        &mut list,
        &mut out,
        |number, list, out| history(number, list, out),
    )?;
    list.rest.check()?;
    out.flush()
}

fn main(rt: HostRuntime) -> Result<(), AllocError> {
    replay::passed_over(histories(&rt))
}
