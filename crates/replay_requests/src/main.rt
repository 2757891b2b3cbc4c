// Replays requests through the library function of the program `frame`.
//
// Standard input has a line for each request, as `replay_text` reads them.
//
// Standard output has a line for each: its name, a bar, how many bytes the program writes for it, and these
// bytes, or their CRC-32 where they are more than 40. The last line counts the requests.
// tools/requests.py makes both files.
#![tactic(auto)]

use replay_text::Reply;
use std::io;
use std::io::Write;

// The most bytes of the text: those past them are not read.
const MOST: usize = 65536;

fn reply<W: Write + Drop>(request: &[u8], out: &mut W) -> io::Result<()> {
    // `reply_to` takes an array of this size, and the reply fills a part of it.
    let mut output = [0; 49152];
    let size = frame_request::reply_to(request, &mut output);
    let reply = Reply(&output[..size]);
    write!(out, "{reply}")
}

fn main(rt: HostRuntime) {
    let mut text = [0; MOST];
    // What was read before a read failed is replayed too.
    let size = match standard_streams::read_input(&mut rt.reader(), &mut text) {
        Ok(size) => size,
        Err(stopped) => stopped.size,
    };
    // One byte past the largest request.
    let mut room = [0; 65546];
    let mut out = replay::Lossy(io::writer(&rt));
    // A write that failed is passed over, and no memory can run out: it takes no heap.
    let _ = replay_text::replay_lines(&text[..size], &mut room, &mut out, reply);
}
