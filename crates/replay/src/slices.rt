// A list over a slice, whose bytes are all at hand: what is said of it is said of the bytes that are left, whatever they are, since reading them cannot fail;
// and the calls of a list that is read whole before the first of them.
ghost use Rattle.std.specs.Prelude.{◌≡◌, ◌≤◌, length, drop, replicate, IfOk, IfErr, OnOk, IfSome};
ghost use Rattle.std.specs.List.{FoldsTo, range_with_len};
ghost use Rattle.std.specs.Io.KnownBytes.{Keeps};
ghost use Rattle.std.specs.Io.Buffered.{writer_contents};
ghost use Rattle.replay.specs.Stored.{next_number, next_room, IsNumber, IsWide, IsFilled, IsFloat, IsFrame, AreFilled};
ghost use Rattle.replay.specs.Calls.{CallsAt, StopsAt, Prints};
ghost use Rattle.replay.specs.Streams.{SliceList};

use super::{List, Planes};
use definitions::FrameDescription;
use std::alloc::{AllocError, Global};
use std::io;
use std::io::{BufWriter, Read, Write};

fn number(list: &mut List<&[u8]>) -> u32
    ensures { IsNumber list.old.rest.now list.new.rest.now result }
{
    list.number()
}

fn wide(list: &mut List<&[u8]>) -> u64
    ensures { IsWide list.old.rest.now list.new.rest.now result }
{
    list.wide()
}

fn room(list: &mut List<&[u8]>, most: usize) -> usize
    ensures bound { result ≤ most }
    ensures value { result ≡ next_room most list.old.rest.now }
    ensures left { list.new.rest.now ≡ drop 4 list.old.rest.now }
{
    list.room(most)
}

fn float(list: &mut List<&[u8]>) -> f32
    ensures { IsFloat list.old.rest.now list.new.rest.now result }
{
    list.float()
}

fn frame(list: &mut List<&[u8]>) -> FrameDescription
    ensures { IsFrame list.old.rest.now list.new.rest.now result }
{
    list.frame()
}

fn buffer(list: &mut List<&[u8]>, most: usize) -> Result<Vec<u8>, AllocError>
    ensures zeros { IfOk result (λ buffer. buffer.items ≡ replicate (next_room most list.old.rest.now) 0) }
    ensures left { list.new.rest.now ≡ drop 4 list.old.rest.now }
{
    list.buffer(most)
}

fn planes(list: &mut List<&[u8]>, most: usize) -> Result<Planes, AllocError>
    ensures zeros { let left = list.old.rest.now in IfOk result (λ planes.
        (planes.y.items ≡ replicate (next_room most left) 0)
        × (planes.u.items ≡ replicate (next_room most (drop 4 left)) 0)
        × (planes.v.items ≡ replicate (next_room most (drop 8 left)) 0)) }
    ensures left { list.new.rest.now ≡ drop 12 list.old.rest.now }
{
    list.planes(most)
}

fn fill(list: &mut List<&[u8]>, buffer: &mut [u8])
    ensures { IsFilled list.old.rest.now list.new.rest.now buffer.old buffer.new }
{
    list.fill(buffer);
}

fn fill_planes(list: &mut List<&[u8]>, planes: &mut Planes)
    ensures { AreFilled list.old.rest.now list.new.rest.now
        (planes.old.y.items, planes.old.u.items, planes.old.v.items)
        (planes.new.y.items, planes.new.u.items, planes.new.v.items) }
{
    list.fill_planes(planes);
}

fn each<'a, W: Write + Drop, F: FnMut(u32, &mut List<&'a [u8]>, &mut W) -> io::Result<()>>(
    list: &mut List<&'a [u8]>,
    out: &mut W,
    call: F,
) -> io::Result<()>
    requires { F.IsAlwaysCallable call }
    ensures all { OnOk result ((first : SliceList) × (last : F)
        × (first.rest.now ≡ drop 4 list.old.rest.now)
        × FoldsTo (CallsAt F.FnMut) (call, first, out.old)
        (range_with_len 1 (next_number list.old.rest.now)) (last, list.new, out.new)) }
    ensures stop { IfErr result (λ error. (first : SliceList) × (last : F)
        × (first.rest.now ≡ drop 4 list.old.rest.now)
        × StopsAt F.FnMut (call, first, out.old) (next_number list.old.rest.now) error (last, list.new, out.new)) }
{
    super::each(list, out, call)
}

fn replay_as_read<'a, W: Write + Drop, F: FnMut(&mut List<&'a [u8]>, &mut W) -> io::Result<()>>(
    list: &mut List<&'a [u8]>,
    out: &mut W,
    call: F,
) -> io::Result<()>
    requires { F.IsAlwaysCallable call }
    ensures { OnOk result ((first : SliceList) × (last : F) × (written : W)
        × (first.rest.now ≡ drop 4 list.old.rest.now)
        × FoldsTo (Prints F.FnMut W.contents) (call, first, out.old)
        (range_with_len 1 (next_number list.old.rest.now)) (last, list.new, written)
        × Keeps (W.contents written) (W.contents out.new)) }
{
    super::replay_as_read(list, out, call)
}

// Makes each call of a list, and prints a line of each: its number, and what the call prints. The writer is flushed once, behind the last call.
// A loop of its own: over `each`, by a closure that prints around `call`, it did not prove that the closure may be called again and again.
pub fn replay<W: Write + Drop, F: FnMut(&mut List<&[u8]>, &mut W) -> io::Result<()>>(
    list: &mut List<&[u8]>,
    out: &mut W,
    mut call: F,
) -> io::Result<()>
    requires { F.IsAlwaysCallable call }
    ensures { OnOk result ((first : SliceList) × (last : F) × (written : W)
        × (first.rest.now ≡ drop 4 list.old.rest.now)
        × FoldsTo (Prints F.FnMut W.contents) (call, first, out.old)
        (range_with_len 1 (next_number list.old.rest.now)) (last, list.new, written)
        × Keeps (W.contents written) (W.contents out.new)) }
{
    let count = number(list);
    for place in 0..count {
        let number = place + 1;
        write!(out, "{number}")?;
        call(list, out)?;
        out.write_all(b"\n")?;
    }
    out.flush()
}

// Makes and prints the calls of the list that a reader holds, which is read whole first, and answers the writer. What is written goes through
// a buffer.
pub fn over_streams<
    I: Read + Drop,
    O: Write + Drop,
    F: FnMut(&mut List<&[u8]>, &mut BufWriter<O>) -> io::Result<()>,
>(alloc: Global, mut input: I, output: O, call: F) -> io::Result<O>
    requires { F.IsAlwaysCallable call }
    ensures { IfOk result (λ output_left. (opened : SliceList) × (first : SliceList) × (ended : SliceList) × (last : F)
        × (begun : BufWriter O Global) × (written : BufWriter O Global)
        × IfSome (I.remaining input) (λ held. opened.rest.now ≡ held)
        × (first.rest.now ≡ drop 4 opened.rest.now)
        × (writer_contents O.contents begun ≡ O.contents output)
        × FoldsTo (Prints F.FnMut (writer_contents O.contents)) (call, first, begun)
        (range_with_len 1 (next_number opened.rest.now)) (last, ended, written)
        × Keeps (writer_contents O.contents written) (O.contents output_left)) }
{
    let mut bytes = Vec::new(alloc);
    input.read_to_end(&mut bytes)?;
    let mut list = List {
        rest: bytes.as_slice(),
        alloc,
    };
    let mut out = BufWriter::new(alloc, output)?;
    replay(&mut list, &mut out, call)?;
    Ok(out.into_inner()?)
}

#[cfg(test)]
mod tests {
    use super::*;
    use std::io::ErrorKind;
    use std::test::Fail;

    // Keeps what it is given, refuses each flush before its second newline, and counts the others.
    #[derive(Drop)]
    struct Late {
        held: Vec<u8>,
        lines: u32,
        flushes: u32,
    }

    impl Write for Late {
        fn write(&mut self, buf: &[u8]) -> io::Result<usize> {
            if buf == b"\n".as_slice() {
                self.lines = self.lines.wrapping_add(1);
            }
            self.held.write(buf)
        }

        fn flush(&mut self) -> io::Result<()> {
            if self.lines < 2 {
                return Err(io::Error::from(ErrorKind::WouldBlock));
            }
            self.flushes = self.flushes.wrapping_add(1);
            Ok(())
        }
    }

    #[test]
    fn each_call_has_its_line(rt: HostRuntime) -> Result<(), Fail> {
        let rest: &[u8] = &[2, 0, 0, 0, 7, 0, 0, 0, 8, 0, 0, 0];
        let mut list = List {
            rest,
            alloc: rt.alloc(),
        };
        let mut out = Vec::new(rt.alloc());
        replay(&mut list, &mut out, |list, out| {
            let number = list.number();
            write!(out, " {number}")
        })?;
        assert_eq!(rt; out.as_slice(), b"1 7\n2 8\n".as_slice());
        Ok(())
    }

    #[test]
    fn the_writer_is_flushed_once_behind_the_last_call(rt: HostRuntime) -> Result<(), Fail> {
        let rest: &[u8] = &[2, 0, 0, 0, 7, 0, 0, 0, 8, 0, 0, 0];
        let mut list = List {
            rest,
            alloc: rt.alloc(),
        };
        let mut out = Late {
            held: Vec::new(rt.alloc()),
            lines: 0,
            flushes: 0,
        };
        replay(&mut list, &mut out, |list, out| {
            let number = list.number();
            write!(out, " {number}")
        })?;
        assert_eq!(rt; out.held.as_slice(), b"1 7\n2 8\n".as_slice());
        assert_eq!(rt; out.flushes, 1);
        Ok(())
    }

    #[test]
    fn streams_are_read_and_written_through_buffers(rt: HostRuntime) -> Result<(), Fail> {
        let input: &[u8] = &[2, 0, 0, 0, 7, 0, 0, 0, 8, 0, 0, 0];
        let mut out = Vec::new(rt.alloc());
        over_streams(rt.alloc(), input, &mut out, |list, out| {
            let number = list.number();
            write!(out, " {number}")
        })?;
        assert_eq!(rt; out.as_slice(), b"1 7\n2 8\n".as_slice());
        Ok(())
    }
}
