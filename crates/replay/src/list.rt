// A stored list, and the loop over its calls.
ghost use Rattle.std.specs.Prelude.{◌≡◌, ℕ, ◌≤◌, length, take, drop, min, replicate, IfOk, IfErr, OnOk};
ghost use Rattle.std.specs.List.{FoldsTo, range_with_len};
ghost use Rattle.replay.specs.Stored.{next_bytes, next_room, IsNumber, IsWide, IsFilled, Repeats, float_of, IsFloat, IsFrame, AreFilled};
ghost use Rattle.replay.specs.Sources.{Reads, IsWhole, SameLeft, told};
ghost use Rattle.replay.specs.Streams.{streamed_left};
ghost use Rattle.std.specs.Io.KnownBytes.{Keeps};
ghost use Rattle.std.specs.Io.Buffered.{reader_remaining, writer_contents};
ghost use Rattle.replay.specs.Calls.{Gives, CallsAt, StopsAt, Prints};

use super::{ByteSource, Planes, Streamed};
use definitions::FrameDescription;
use std::alloc::{AllocError, Global};
use std::io;
use std::io::{BufReader, BufWriter, Read, Write};

// How many bytes the buffer of a stream holds. With 8,192, as std has them, a program of a large file would need another 132 KiB of address space: the C
// library takes its heap by as much.
const STREAM_BUFFER: usize = 1024;

// What is left to read of a list. Past its end each number is 0. Reading answers no error: what the bytes come from keeps that of a read that failed, after
// which nothing is said of what is read.
#[derive(Drop)]
pub struct List<S> {
    pub rest: S,
    pub alloc: Global,
}

// Repeats the first `block` bytes of a buffer to its end. A block of none leaves the buffer as it was.
pub fn repeat(buffer: &mut [u8], block: usize)
    requires { block ≤ length buffer.old }
    ensures repeats { Repeats block buffer.new }
    ensures front { take block buffer.new ≡ take block buffer.old }
    ensures as_long { length buffer.new ≡ length buffer.old }
    ensures none { block ≡ 0 → buffer.new ≡ buffer.old }
{
    // By index: each byte is one that the loop wrote before, which no iterator lends beside the place to write.
    for k in block..buffer.len() {
        buffer[k] = buffer[k - block];
    }
}

// The float of these bits. Above the bits of infinity, the sign aside, are those of the NaNs: they give a NaN.
fn float_of(bits: u32) -> f32
    ensures { result ≡ float_of bits }
{
    if bits % 0x8000_0000 > 0x7f80_0000 {
        return f32::NAN;
    }
    f32::from_bits(bits)
}

impl<S: ByteSource> List<S> {
    // The next so many bytes, or zeros past the list's end.
    fn array<const N: usize>(&mut self) -> [u8; N]
        ensures { Reads (S.left self.old.rest) (S.left self.new.rest) (λ old new. (result ≡ next_bytes N old) × (new ≡ drop N old)) }
    {
        let mut bytes = [0; N];
        self.rest.bytes(&mut bytes);
        bytes
    }

    // The next number: four bytes, low byte first.
    pub fn number(&mut self) -> u32
        ensures { Reads (S.left self.old.rest) (S.left self.new.rest) (λ old new. IsNumber old new result) }
    {
        u32::from_le_bytes(self.array())
    }

    // The next two numbers as one of 64 bits, the low half first. It reads, and converts no type.
    pub fn wide(&mut self) -> u64
        ensures { Reads (S.left self.old.rest) (S.left self.new.rest) (λ old new. IsWide old new result) }
    {
        u64::from_le_bytes(self.array())
    }

    // The next number, at most this one.
    pub fn room(&mut self, most: usize) -> usize
        ensures bound { result ≤ most }
        ensures value { Reads (S.left self.old.rest) (S.left self.new.rest) (λ old new.
            (result ≡ next_room most old) × (new ≡ drop 4 old)) }
    {
        (self.number() as usize).min(most)
    }

    // The next number as the bits of a float.
    pub fn float(&mut self) -> f32
        ensures { Reads (S.left self.old.rest) (S.left self.new.rest) (λ old new. IsFloat old new result) }
    {
        float_of(self.number())
    }

    // The numbers of a description, in their order; the bits of kr and kb stand behind the code of the matrix.
    pub fn frame(&mut self) -> FrameDescription
        ensures { Reads (S.left self.old.rest) (S.left self.new.rest) (λ old new. IsFrame old new result) }
    {
        let mut numbers = [0u32; 15];
        let mut custom = [0f32; 2];
        let (front, rest) = numbers.split_at_mut(6);
        self.row(front, |list| list.number());
        self.row(&mut custom, |list| list.float());
        self.row(rest, |list| list.number());
        call_numbers::describe(&numbers, &custom)
    }

    // Zeros, as many as the next number says, at most this many.
    pub fn buffer(&mut self, most: usize) -> Result<Vec<u8>, AllocError>
        ensures bound { IfOk result (λ buffer. length buffer.items ≤ most) }
        ensures zeros { IfOk result (λ buffer. Reads (S.left self.old.rest) (S.left self.new.rest) (λ old new.
            buffer.items ≡ replicate (next_room most old) 0)) }
        ensures left { Reads (S.left self.old.rest) (S.left self.new.rest) (λ old new. new ≡ drop 4 old) }
    {
        let length = self.room(most);
        vec![in self.alloc; 0u8; length]
    }

    // Zeros for each plane, as `buffer`.
    pub fn planes(&mut self, most: usize) -> Result<Planes, AllocError>
        ensures bound { IfOk result (λ planes.
            (length planes.y.items ≤ most) × (length planes.u.items ≤ most) × (length planes.v.items ≤ most)) }
        ensures zeros { IfOk result (λ planes. Reads (S.left self.old.rest) (S.left self.new.rest) (λ old new.
            (planes.y.items ≡ replicate (next_room most old) 0)
            × (planes.u.items ≡ replicate (next_room most (drop 4 old)) 0)
            × (planes.v.items ≡ replicate (next_room most (drop 8 old)) 0))) }
        ensures left { Reads (S.left self.old.rest) (S.left self.new.rest) (λ old new. new ≡ drop 12 old) }
    {
        let y = self.room(most);
        let u = self.room(most);
        let v = self.room(most);
        Ok(Planes {
            y: vec![in self.alloc; 0u8; y]?,
            u: vec![in self.alloc; 0u8; u]?,
            v: vec![in self.alloc; 0u8; v]?,
        })
    }

    // Fills a buffer with the next block, which is repeated.
    pub fn fill(&mut self, buffer: &mut [u8])
        ensures as_long { length buffer.new ≡ length buffer.old }
        ensures filled { Reads (S.left self.old.rest) (S.left self.new.rest) (λ old new.
            IsFilled old new buffer.old buffer.new) }
    {
        let block = self.room(buffer.len());
        self.rest.bytes(&mut buffer[..block]);
        repeat(buffer, block);
    }

    // Fills each plane so.
    pub fn fill_planes(&mut self, planes: &mut Planes)
        ensures as_long { (length planes.new.y.items ≡ length planes.old.y.items)
            × (length planes.new.u.items ≡ length planes.old.u.items)
            × (length planes.new.v.items ≡ length planes.old.v.items) }
        ensures filled { Reads (S.left self.old.rest) (S.left self.new.rest) (λ old new. AreFilled old new
            (planes.old.y.items, planes.old.u.items, planes.old.v.items)
            (planes.new.y.items, planes.new.u.items, planes.new.v.items)) }
    {
        self.fill(&mut planes.y);
        self.fill(&mut planes.u);
        self.fill(&mut planes.v);
    }

    // Reads a value for each place. That a closure may always be called is asked where it is taken, here and in fourteen more functions: its type is a
    // parameter of each, and a struct round it would ask the same.
    pub fn row<T: Copy, F: FnMut(&mut List<S>) -> T>(&mut self, places: &mut [T], mut next: F)
        requires { F.IsAlwaysCallable next }
        ensures { (last : F) × FoldsTo (Gives F.FnMut) (next, self.old) places.new (last, self.new) }
    {
        for place in places {
            *place = next(self);
        }
    }
}

// The list that a reader holds, which is read through a buffer.
pub fn list_of<I: Read + Drop>(alloc: Global, input: I) -> io::Result<List<Streamed<BufReader<I>>>>
    ensures { IfOk result (λ list.
        SameLeft (streamed_left (reader_remaining I.remaining) list.rest) (told (I.remaining input))) }
{
    let reader = BufReader::with_capacity(alloc, STREAM_BUFFER, input)?;
    let rest = Streamed {
        reader,
        ended: false,
        failure: None,
    };
    Ok(List { rest, alloc })
}

// Makes each call of a list, which is told its number: they count from 1.
// The list and the writer are two parameters of each call here and in the programs: both are lent by `&mut`, and a struct of the two would be taken apart in
// every call.
pub fn each<S: ByteSource, W: Write + Drop, F: FnMut(u32, &mut List<S>, &mut W) -> io::Result<()>>(
    list: &mut List<S>,
    out: &mut W,
    mut call: F,
) -> io::Result<()>
    requires { F.IsAlwaysCallable call }
    ensures all { OnOk result ((first : List S) × (last : F) × (count : ℕ)
        × Reads (S.left list.old.rest) (S.left first.rest) (λ old new. IsNumber old new count)
        × FoldsTo (CallsAt F.FnMut) (call, first, out.old) (range_with_len 1 count) (last, list.new, out.new)) }
    ensures stop { IfErr result (λ error. (first : List S) × (last : F) × (count : ℕ)
        × Reads (S.left list.old.rest) (S.left first.rest) (λ old new. IsNumber old new count)
        × StopsAt F.FnMut (call, first, out.old) count error (last, list.new, out.new)) }
{
    let count = list.number();
    for place in 0..count {
        call(place + 1, list, out)?;
    }
    Ok(())
}

// Makes each call of a list, and prints a line of each: its number, and what the call prints. After a read that failed the calls that are left are made of
// zeros, as past the list's end, and its error is answered.
// A loop of its own: over `each`, by a closure that prints around `call`, it did not prove that the closure may be called again and again.
pub fn replay_as_read<
    S: ByteSource,
    W: Write + Drop,
    F: FnMut(&mut List<S>, &mut W) -> io::Result<()>,
>(list: &mut List<S>, out: &mut W, mut call: F) -> io::Result<()>
    requires { F.IsAlwaysCallable call }
    ensures { OnOk result ((first : List S) × (last : F) × (written : W) × (count : ℕ)
        × Reads (S.left list.old.rest) (S.left first.rest) (λ old new. IsNumber old new count)
        × IsWhole (S.left first.rest)
        × FoldsTo (Prints F.FnMut W.contents) (call, first, out.old) (range_with_len 1 count) (last, list.new, written)
        × IsWhole (S.left list.new.rest)
        × Keeps (W.contents written) (W.contents out.new)) }
{
    let count = list.number();
    let begun = list.rest.check();
    for place in 0..count {
        let number = place + 1;
        // Who gives the list part by part has the number of a call before it is read, and its line before the next one is.
        write!(out, "{number}")?;
        out.flush()?;
        call(list, out)?;
        out.write_all(b"\n")?;
        out.flush()?;
    }
    begun?;
    list.rest.check()?;
    out.flush()
}

// Makes and prints the calls of the list that a reader holds, and answers the writer, or the error of a read that failed. Both streams go through buffers.
pub fn over_streams_as_read<
    I: Read + Drop,
    O: Write + Drop,
    F: FnMut(&mut List<Streamed<BufReader<I>>>, &mut BufWriter<O>) -> io::Result<()>,
>(alloc: Global, input: I, output: O, call: F) -> io::Result<O>
    requires { F.IsAlwaysCallable call }
    ensures { IfOk result (λ output_left. let left = streamed_left (reader_remaining I.remaining) in
        (opened : List (Streamed (BufReader I Global))) × (first : List (Streamed (BufReader I Global)))
        × (ended : List (Streamed (BufReader I Global))) × (last : F)
        × (begun : BufWriter O Global) × (written : BufWriter O Global) × (count : ℕ)
        × SameLeft (left opened.rest) (told (I.remaining input))
        × Reads (left opened.rest) (left first.rest) (λ old new. IsNumber old new count)
        × IsWhole (left first.rest)
        × (writer_contents O.contents begun ≡ O.contents output)
        × FoldsTo (Prints F.FnMut (writer_contents O.contents)) (call, first, begun)
        (range_with_len 1 count) (last, ended, written)
        × IsWhole (left ended.rest)
        × Keeps (writer_contents O.contents written) (O.contents output_left)) }
{
    let mut list = list_of(alloc, input)?;
    let mut out = BufWriter::with_capacity(alloc, STREAM_BUFFER, output)?;
    replay_as_read(&mut list, &mut out, call)?;
    Ok(out.into_inner()?)
}

#[cfg(test)]
mod tests {
    use super::*;
    use std::io::ErrorKind;
    use std::test::Fail;

    // Gives a byte a call, and an error at one call: never where that is 0.
    #[derive(Drop)]
    struct Slow<'a> {
        rest: &'a [u8],
        calls: u32,
        fails_at: u32,
    }

    impl Read for Slow<'_> {
        fn read(&mut self, buf: &mut [u8]) -> io::Result<usize> {
            self.calls = self.calls.wrapping_add(1);
            if self.calls == self.fails_at {
                return Err(io::Error::from(ErrorKind::PermissionDenied));
            }
            if buf.is_empty() || self.rest.is_empty() {
                return Ok(0);
            }
            buf[0] = self.rest[0];
            self.rest = &self.rest[1..];
            Ok(1)
        }
    }

    #[test]
    fn a_buffer_is_as_long_as_the_list_says(rt: HostRuntime) -> Result<(), Fail> {
        let rest: &[u8] = &[3, 0, 0, 0, 9, 0, 0, 0];
        let mut list = List {
            rest,
            alloc: rt.alloc(),
        };
        let first = list.buffer(5)?;
        let second = list.buffer(5)?;
        assert_eq!(rt; first.as_slice(), [0, 0, 0].as_slice());
        assert_eq!(rt; second.len(), 5);
        Ok(())
    }

    #[test]
    fn each_plane_is_as_long_as_the_list_says(rt: HostRuntime) -> Result<(), Fail> {
        let rest: &[u8] = &[4, 0, 0, 0, 2, 0, 0, 0, 1, 0, 0, 0];
        let mut list = List {
            rest,
            alloc: rt.alloc(),
        };
        let planes = list.planes(9)?;
        assert_eq!(rt; planes.y.len(), 4);
        assert_eq!(rt; planes.u.len(), 2);
        assert_eq!(rt; planes.v.len(), 1);
        Ok(())
    }

    #[test]
    fn calls_are_told_their_numbers(rt: HostRuntime) -> Result<(), Fail> {
        let rest: &[u8] = &[2, 0, 0, 0, 7, 0, 0, 0, 8, 0, 0, 0];
        let mut list = List {
            rest,
            alloc: rt.alloc(),
        };
        let mut out = Vec::new(rt.alloc());
        each(&mut list, &mut out, |place, list, out| {
            let number = list.number();
            write!(out, "{place} {number};")
        })?;
        assert_eq!(rt; out.as_slice(), b"1 7;2 8;".as_slice());
        Ok(())
    }

    #[test]
    fn an_error_of_a_call_stops_the_calls(rt: HostRuntime) {
        let rest: &[u8] = &[3, 0, 0, 0];
        let mut list = List {
            rest,
            alloc: rt.alloc(),
        };
        let mut out = Vec::new(rt.alloc());
        let made = each(&mut list, &mut out, |place, _, out| {
            write!(out, "{place};")?;
            if place == 2 {
                return Err(io::Error::from(ErrorKind::Other));
            }
            Ok(())
        });
        assert_eq!(rt; made.map_err(|error| error.kind()), Err(ErrorKind::Other));
        assert_eq!(rt; out.as_slice(), b"1;2;".as_slice());
    }

    #[test]
    fn each_call_has_its_line(rt: HostRuntime) -> Result<(), Fail> {
        let rest: &[u8] = &[2, 0, 0, 0, 7, 0, 0, 0, 8, 0, 0, 0];
        let mut list = List {
            rest,
            alloc: rt.alloc(),
        };
        let mut out = Vec::new(rt.alloc());
        replay_as_read(&mut list, &mut out, |list, out| {
            let number = list.number();
            write!(out, " {number}")
        })?;
        assert_eq!(rt; out.as_slice(), b"1 7\n2 8\n".as_slice());
        Ok(())
    }

    #[test]
    fn streams_are_read_and_written_through_buffers(rt: HostRuntime) -> Result<(), Fail> {
        let input: &[u8] = &[2, 0, 0, 0, 7, 0, 0, 0, 8, 0, 0, 0];
        let mut out = Vec::new(rt.alloc());
        over_streams_as_read(rt.alloc(), input, &mut out, |list, out| {
            let number = list.number();
            write!(out, " {number}")
        })?;
        assert_eq!(rt; out.as_slice(), b"1 7\n2 8\n".as_slice());
        Ok(())
    }

    #[test]
    fn a_list_may_come_a_byte_a_call(rt: HostRuntime) -> Result<(), Fail> {
        let input = Slow {
            rest: &[2, 0, 0, 0, 7, 0, 0, 0, 8, 0, 0, 0],
            calls: 0,
            fails_at: 0,
        };
        let mut out = Vec::new(rt.alloc());
        over_streams_as_read(rt.alloc(), input, &mut out, |list, out| {
            let number = list.number();
            write!(out, " {number}")
        })?;
        assert_eq!(rt; out.as_slice(), b"1 7\n2 8\n".as_slice());
        Ok(())
    }

    #[test]
    fn a_failed_read_is_no_end(rt: HostRuntime) {
        let input = Slow {
            rest: &[2, 0, 0, 0, 7, 0, 0, 0, 8, 0, 0, 0],
            calls: 0,
            fails_at: 10,
        };
        let mut out = Vec::new(rt.alloc());
        let made = over_streams_as_read(rt.alloc(), input, &mut out, |list, out| {
            let number = list.number();
            write!(out, " {number}")
        });
        assert_eq!(rt;
            made.map(|_| ()).map_err(|error| error.kind()),
            Err(ErrorKind::PermissionDenied)
        );
    }
}
