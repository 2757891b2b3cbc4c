// Makes the frame calls of a stored list, its standard input, and prints a line of what came of each. vectors/README.md has both forms.
#![tactic(auto)]

use replay::{Answer, ByteSource, List};
use std::alloc::AllocError;
use std::io;
use std::io::Write;

// The most bytes of a buffer.
const ROOM: usize = 65536;

fn call<S: ByteSource, W: Write + Drop>(list: &mut List<S>, out: &mut W) -> io::Result<()> {
    let mut source = list.buffer(ROOM)?;
    let mut planes = list.planes(ROOM)?;
    let frame = list.frame();
    let stride = list.number();
    list.fill(&mut source);
    list.fill_planes(&mut planes);
    let answer = Answer(sharp_rgba_to_yuv::rgbx_to_sharp_yuv(
        frame,
        &source,
        stride,
        &mut planes.y,
        &mut planes.u,
        &mut planes.v,
    ));
    write!(out, "{answer}{planes}")
}

fn main(rt: HostRuntime) -> Result<(), AllocError> {
    replay::passed_over(replay::over_streams_as_read(
        rt.alloc(),
        rt.reader(),
        replay::Lossy(io::writer(&rt)),
        call,
    ))
}
