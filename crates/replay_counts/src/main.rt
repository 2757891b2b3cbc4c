// Replays requests through the library function of the program `luma_counts`.
//
// Standard input has a line for each request, as `replay_text` reads them.
//
// Standard output has a line for each: its name, a bar, how many bytes the program writes for it, and these bytes, or where they are
// more than 40 their CRC-32 and the lines of five lumas. The last line counts the requests.
// tools/counts.py makes both files.
#![tactic(auto)]

use replay_text::Reply;
use std::io::Write;
use std::{fmt, io};

// The most bytes of the text: those past them are not read.
const MOST: usize = 65536;

// The lines of black and white of either range, and of the middle, where there are lines.
#[derive(Clone, Copy)]
struct Lines<'a>(&'a [u8]);

impl fmt::Display for Lines<'_> {
    fn fmt<W: fmt::Write>(&self, f: &mut fmt::Formatter<W>) -> fmt::Result {
        if self.0.len() > 40 {
            for (luma, line) in self.0.split(|b| *b == b'\n').enumerate() {
                if matches!(luma, 0 | 16 | 128 | 235 | 255) {
                    write!(f, ", ")?;
                    for byte in line {
                        let letter = char::from(*byte);
                        write!(f, "{letter}")?;
                    }
                }
            }
        }
        Ok(())
    }
}

fn reply<W: Write + Drop>(request: &[u8], out: &mut W) -> io::Result<()> {
    // `reply_to` takes an array of this size, and the reply fills a part of it.
    let mut output = [0; 3328];
    let size = counts_request::reply_to(request, &mut output);
    let reply = Reply(&output[..size]);
    let lines = Lines(&output[..size]);
    write!(out, "{reply}{lines}")
}

fn main(rt: HostRuntime) {
    let mut text = [0; MOST];
    // What was read before a read failed is replayed too.
    let size = match standard_streams::read_input(&mut rt.reader(), &mut text) {
        Ok(size) => size,
        Err(stopped) => stopped.size,
    };
    let mut room = [0; 16];
    let mut out = replay::Lossy(io::writer(&rt));
    // A write that failed is passed over, and no memory can run out: it takes no heap.
    let _ = replay_text::replay_lines(&text[..size], &mut room, &mut out, reply);
}
