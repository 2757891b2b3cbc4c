// Named requests in lines of text, and what is printed of their replies. A line has a name, a bar, and the bytes of the request in
// hexadecimal. After `*` stands how many bytes it has in all: those past the ninth come again and again.
//
//     red, 1 by 1 | 01 00 01 00 00 01 01 00 00 FF 00 00
//     one colour, 128 by 128 | 80 00 80 00 00 00 00 00 00 10 20 30 * 49161
#![tactic(auto)]

ghost use Rattle.std.specs.Prelude.{Some, ◌≡◌, ◌≢◌, ℕ, List, ◌<◌, ◌≤◌, ◌↔◌, ◌++◌, ◌-◌, ◌^◌, ◌%◌, All, take, length, slice_index, min, IfSome, IsNone, IfOk, OnOk, codes, decimal};
ghost use Rattle.std.specs.List.{FoldsTo};
ghost use Rattle.std.specs.Io.KnownBytes.{Appends, Keeps, IsAtEnd};
ghost use Rattle.std.specs.Io.Buffered.{writer_contents};
ghost use Rattle.replay_text.specs.Lines.{IsCut, digit, bytes_of, with_digit, number_of, repeated, request_of, AreLines, Replies};

use replay::Digest;
use std::alloc::Global;
use std::io::{BufRead, BufReader, BufWriter, Read, Write};
use std::{fmt, io};

// How many bytes of a request stand before those that come again.
const HEADER: usize = 9;

// The index of the first such byte.
pub fn find(text: &[u8], byte: u8) -> Option<usize>
    ensures none { IsNone result ↔ All (λ b. b ≢ byte) text.now }
    ensures found { IfSome result (λ i. (i < length text.now) × (slice_index text.now i ≡ byte)) }
    ensures first { IfSome result (λ i. (k : ℕ) → k < i → slice_index text.now k ≢ byte) }
{
    text.iter().position(|b| *b == byte)
}

// What stands before the first such byte and what stands behind it, or all and nothing.
fn cut(text: &[u8], byte: u8) -> (&[u8], &[u8])
    ensures { IsCut byte text.now result.0.now result.1.now }
{
    match find(text, byte) {
        Some(i) => (&text[..i], &text[i + 1..]),
        None => (text, &[]),
    }
}

// The value of a digit in base 16; 0 for any other byte. By hand: a character is of no type of ours, and std's digits have small letters too.
fn digit(b: u8) -> u8
    ensures value { result ≡ digit b }
    ensures low { result < 16 }
{
    match b {
        b'0'..=b'9' => b - b'0',
        b'A'..=b'F' => b - b'A' + 10,
        _ => 0,
    }
}

// Writes the bytes of ` 01 00 FF`, as many as there is room for, and answers how many.
fn read_bytes(text: &[u8], room: &mut [u8]) -> usize
    ensures bytes { take result room.new ≡ bytes_of text.now (length room.old) }
    ensures bound { result ≤ length room.new }
{
    let count = room.len().min(text.len() / 3);
    // By index: after `iter_mut` and `zip` nothing would be known of the bytes that were written.
    for n in 0..count {
        room[n] = digit(text[3 * n + 1]) * 16 + digit(text[3 * n + 2]);
    }
    count
}

// A number with one digit more, of which the last six count; a byte that is no digit changes nothing.
fn with_digit(n: usize, b: u8) -> usize
    requires { n < 1000000 }
    ensures { result ≡ with_digit n b % 1000000 }
{
    match b {
        b'0'..=b'9' => (10 * n + (b - b'0') as usize) % 1000000,
        _ => n,
    }
}

fn read_number(text: &[u8]) -> usize
    ensures { result ≡ number_of text.now }
{
    let mut n = 0;
    for b in text {
        n = with_digit(n, *b);
    }
    n
}

// Makes the bytes that were given at a room's start `size` in all, by those past the ninth again and again, and answers how many there are then.
fn repeat(room: &mut [u8], given: usize, size: usize) -> usize
    requires { given ≤ length room.old }
    ensures bytes { take result room.new ≡ repeated (take given room.old) size (length room.old) }
    ensures bound { result ≤ length room.new }
{
    if given <= HEADER || size <= given || room.len() < size {
        return given;
    }
    replay::repeat(&mut room[HEADER..size], given - HEADER);
    size
}

// The request of what stands behind the bar of a line, ` 01 00 FF` or ` 01 00 FF * 9`, in the room that the caller lends. No byte comes again
// where there is less room than the number behind `*`.
pub fn read_request<'a>(words: &[u8], room: &'a mut [u8]) -> &'a [u8]
    ensures value { result.now ≡ request_of words.now (length room.old) }
    ensures bound { length result.now ≤ length room.old }
{
    let (bytes, number) = cut(words, b'*');
    let given = read_bytes(bytes, room);
    let size = repeat(room, given, read_number(number));
    &room[..size]
}

// What a program writes for a request: how many bytes, and these bytes, or their digest where they are more than 40.
#[derive(Clone, Copy)]
pub struct Reply<'a>(pub &'a [u8]);

impl fmt::Display for Reply<'_> {
    ghost use Rattle.std.specs.Prelude.{Some};
    ghost use Rattle.replay_text.specs.Lines.{reply_text};

    ghost output = { λ reply. Some (reply_text reply.0.now) };

    fn fmt<W: fmt::Write>(&self, f: &mut fmt::Formatter<W>) -> fmt::Result {
        let size = self.0.len();
        if size > 40 {
            let digest = Digest(self.0);
            return write!(f, "{size} bytes, CRC-32 {digest}");
        }
        write!(f, "{size} bytes ")?;
        for byte in self.0 {
            write!(f, "{byte:02x}")?;
        }
        Ok(())
    }
}

// Makes the request of a line in the room that the caller lends, and prints its name, a bar, what the call prints of the reply, and a newline.
fn reply_to_line<W: Write + Drop, F: FnMut(&[u8], &mut W) -> io::Result<()>>(
    line: &[u8],
    room: &mut [u8],
    out: &mut W,
    call: &mut F,
) -> io::Result<()>
    requires { F.IsAlwaysCallable call.old }
    ensures callable { F.IsAlwaysCallable call.new }
    ensures replied { OnOk result (Replies F.FnMut W.contents (length room.old) (call.old, out.old) line.now (call.new, out.new)) }
{
    let (name, words) = cut(line, b'|');
    let request = read_request(words, room);
    out.write_all(name)?;
    out.write_all(b"| ")?;
    call(request, out)?;
    out.write_all(b"\n")
}

// Makes the request of each line, of at most so many bytes, and prints a line of each: its name, a bar, and what the call prints of the reply.
// The last line counts the requests.
pub fn replay<T: BufRead + Drop, W: Write + Drop, F: FnMut(&[u8], &mut W) -> io::Result<()>>(
    alloc: Global,
    text: T,
    most: usize,
    out: &mut W,
    mut call: F,
) -> io::Result<()>
    requires { F.IsAlwaysCallable call }
    ensures { OnOk result ((lines : List (List ℕ)) × (last : F) × (replied : W) × (counted : W)
        × AreLines (T.remaining text) lines
        × FoldsTo (Replies F.FnMut W.contents most) (call, out.old) lines (last, replied)
        × Appends (W.contents replied) (W.contents counted) (decimal (min (length lines) (2 ^ 64 - 1)) ++ codes " requests\n")
        × Keeps (W.contents counted) (W.contents out.new)) }
{
    let mut room = vec![in alloc; 0u8; most]?;
    let mut count = 0u64;
    for line in text.split(alloc, b'\n') {
        let line = line?;
        reply_to_line(&line, &mut room, out, &mut call)?;
        count = count.saturating_add(1);
    }
    writeln!(out, "{count} requests")?;
    out.flush()
}

// The same of a text that is at hand, without a heap: lines are cut off it, and each request is made in the room that the caller lends.
pub fn replay_lines<W: Write + Drop, F: FnMut(&[u8], &mut W) -> io::Result<()>>(
    text: &[u8],
    room: &mut [u8],
    out: &mut W,
    mut call: F,
) -> io::Result<()>
    requires { F.IsAlwaysCallable call }
    ensures { OnOk result ((lines : List (List ℕ)) × (last : F) × (replied : W) × (counted : W)
        × AreLines (Some text.now) lines
        × FoldsTo (Replies F.FnMut W.contents (length room.old)) (call, out.old) lines (last, replied)
        × Appends (W.contents replied) (W.contents counted) (decimal (min (length lines) (2 ^ 64 - 1)) ++ codes " requests\n")
        × Keeps (W.contents counted) (W.contents out.new)) }
{
    let mut rest = text;
    let mut count = 0u64;
    // A while loop: std's `split` of a slice gives an empty piece behind a newline at the end.
    while !rest.is_empty() {
        let (line, later) = cut(rest, b'\n');
        reply_to_line(line, room, out, &mut call)?;
        count = count.saturating_add(1);
        rest = later;
    }
    writeln!(out, "{count} requests")?;
    out.flush()
}

// Makes and prints the requests of the text that a reader holds, and answers the writer. Both streams go through buffers.
pub fn over_streams<
    I: Read + Drop,
    O: Write + Drop,
    F: FnMut(&[u8], &mut BufWriter<O>) -> io::Result<()>,
>(alloc: Global, input: I, most: usize, output: O, call: F) -> io::Result<O>
    requires { F.IsAlwaysCallable call }
    ensures { IfOk result (λ output_left. (lines : List (List ℕ)) × (last : F)
        × (begun : BufWriter O Global) × (replied : BufWriter O Global) × (counted : BufWriter O Global)
        × AreLines (I.remaining input) lines
        × (writer_contents O.contents begun ≡ O.contents output)
        × FoldsTo (Replies F.FnMut (writer_contents O.contents) most) (call, begun) lines (last, replied)
        × Appends (writer_contents O.contents replied) (writer_contents O.contents counted)
        (decimal (min (length lines) (2 ^ 64 - 1)) ++ codes " requests\n")
        × Keeps (writer_contents O.contents counted) (O.contents output_left)) }
{
    let text = BufReader::new(alloc, input)?;
    let mut out = BufWriter::new(alloc, output)?;
    replay(alloc, text, most, &mut out, call)?;
    Ok(out.into_inner()?)
}

#[cfg(test)]
mod tests {
    use super::*;
    use std::test::Fail;

    #[test]
    fn each_line_is_answered(rt: HostRuntime) -> Result<(), Fail> {
        let text: &[u8] = b"two | 01 FF\nlong | 01 02 03 04 05 06 07 08 09 0A * 12\n";
        let mut out = Vec::new(rt.alloc());
        replay(rt.alloc(), text, 16, &mut out, |request, out| {
            let reply = Reply(request);
            write!(out, "{reply}")
        })?;
        let said = b"two | 2 bytes 01ff\nlong | 12 bytes 0102030405060708090a0a0a\n2 requests\n";
        assert_eq!(rt; out.as_slice(), said.as_slice());
        Ok(())
    }

    #[test]
    fn a_text_at_hand_needs_no_heap(rt: HostRuntime) -> Result<(), Fail> {
        let mut room = [0; 16];
        let mut out = Vec::new(rt.alloc());
        let text = b"two | 01 FF\n\none | 7A";
        replay_lines(text, &mut room, &mut out, |request, out| {
            let reply = Reply(request);
            write!(out, "{reply}")
        })?;
        replay_lines(b"", &mut room, &mut out, |_, out| write!(out, "not called"))?;
        let said = b"two | 2 bytes 01ff\n| 0 bytes \none | 1 bytes 7a\n3 requests\n0 requests\n";
        assert_eq!(rt; out.as_slice(), said.as_slice());
        Ok(())
    }

    #[test]
    fn bytes_past_the_ninth_come_again_where_there_is_room(rt: HostRuntime) -> Result<(), Fail> {
        let words = b" 01 02 03 04 05 06 07 08 09 0A FF * 14";
        let mut room = [0; 14];
        assert_eq!(rt;
            read_request(words, &mut room),
            b"\x01\x02\x03\x04\x05\x06\x07\x08\x09\x0a\xff\x0a\xff\x0a".as_slice()
        );
        assert_eq!(rt;
            read_request(words, &mut room[..13]),
            b"\x01\x02\x03\x04\x05\x06\x07\x08\x09\x0a\xff".as_slice()
        );
        assert_eq!(rt; read_request(words, &mut room[..2]), b"\x01\x02".as_slice());
        Ok(())
    }

    #[test]
    fn streams_are_read_and_written_through_buffers(rt: HostRuntime) -> Result<(), Fail> {
        let text: &[u8] = b"two | 01 FF\none | 7A";
        let mut out = Vec::new(rt.alloc());
        over_streams(rt.alloc(), text, 16, &mut out, |request, out| {
            let reply = Reply(request);
            write!(out, "{reply}")
        })?;
        let said = b"two | 2 bytes 01ff\none | 1 bytes 7a\n2 requests\n";
        assert_eq!(rt; out.as_slice(), said.as_slice());
        Ok(())
    }
}
