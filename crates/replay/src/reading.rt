// What the bytes of a list come from: a slice, which is at hand, or a reader, of which a buffer is held at a time.
ghost use Rattle.std.specs.Prelude.{◌≡◌, ℕ, List, ◌≤◌, ◌<◌, length, take, drop, Some, OnSome, IfOk, OnOk, OnErr};
ghost use Rattle.std.specs.Io.KnownBytes.{Consumes, Keeps, IsAtEnd};
ghost use Rattle.replay.specs.Stored.{read_over};
ghost use Rattle.replay.specs.Sources.{Reads, IsWhole, left_of};

use std::io;
use std::io::{BufRead, ErrorKind};

pub trait ByteSource {
    // Whether these bytes may be what is left: for a slice its own alone, for a reader of unknown bytes any, and none after a read that failed.
    ghost left: { Self → List ℕ → Type 0 };

    // Fills a buffer with the next bytes. Past their end it stays as it was.
    fn bytes(&mut self, buffer: &mut [u8])
        ensures { Reads (left self.old) (left self.new) (λ old new.
            (buffer.new ≡ read_over old buffer.old) × (new ≡ drop (length buffer.old) old)) };

    // Answers the error of a read that failed, if one did.
    fn check(&mut self) -> io::Result<()>
        ensures kept { OnOk result (self.new ≡ self.old) }
        ensures whole { OnOk result (IsWhole (left self.new)) };
}

impl ByteSource for &[u8] {
    ghost left = { λ s xs. xs ≡ s.now };

    fn bytes(&mut self, buffer: &mut [u8]) {
        let all: &[u8] = *self;
        let size = buffer.len().min(all.len());
        let (read, rest) = all.split_at(size);
        buffer[..size].copy_from_slice(read);
        *self = rest;
    }

    fn check(&mut self) -> io::Result<()> {
        Ok(())
    }
}

// A reader, read part by part as its bytes are wanted. Once it is at its end or a read failed it is read no more.
#[derive(Drop)]
pub struct Streamed<B> {
    pub reader: B,
    pub ended: bool,
    pub failure: Option<io::Error>,
}

impl<B: BufRead> ByteSource for Streamed<B> {
    ghost left = { λ s. left_of s.failure s.ended (B.remaining s.reader) };

    fn bytes(&mut self, buffer: &mut [u8]) {
        if self.ended || self.failure.is_some() {
            return;
        }
        match read_whole(&mut self.reader, buffer) {
            Ok(size) => self.ended = size < buffer.len(),
            Err(error) => self.failure = Some(error),
        }
    }

    fn check(&mut self) -> io::Result<()> {
        let Some(failed) = self.failure.take() else {
            return Ok(());
        };
        // The reader stays one that failed.
        self.failure = Some(io::Error::from(ErrorKind::Other));
        Err(failed)
    }
}

// Writes what a reader shows, or as much of it as there is room for, at a buffer's start, and answers how many bytes these are.
fn read_part<B: BufRead>(reader: &mut B, buffer: &mut [u8]) -> io::Result<usize>
    ensures within { IfOk result (λ size. size ≤ length buffer.new) }
    ensures bytes { IfOk result (λ size.
        Consumes (B.remaining reader.old) (B.remaining reader.new) (take size buffer.new)) }
    ensures tail { IfOk result (λ size. drop size buffer.new ≡ drop size buffer.old) }
    ensures end { IfOk result (λ size. size ≡ 0 → 0 < length buffer.old
        → OnSome (B.remaining reader.old) (IsAtEnd (B.remaining reader.new))) }
    ensures kept { OnErr result (Keeps (B.remaining reader.old) (B.remaining reader.new)) }
    ensures still { OnErr result (buffer.new ≡ buffer.old) }
{
    let shown = reader.fill_buf()?;
    let size = shown.len().min(buffer.len());
    buffer[..size].copy_from_slice(&shown[..size]);
    reader.consume(size);
    Ok(size)
}

// Reads until a buffer is full, or to the end, and answers how many bytes these are. Behind them the buffer stays as it was.
fn read_whole<B: BufRead>(reader: &mut B, buffer: &mut [u8]) -> io::Result<usize>
    ensures within { IfOk result (λ size. size ≤ length buffer.new) }
    ensures bytes { IfOk result (λ size.
        Consumes (B.remaining reader.old) (B.remaining reader.new) (take size buffer.new)) }
    ensures tail { IfOk result (λ size. drop size buffer.new ≡ drop size buffer.old) }
    ensures end { IfOk result (λ size. size < length buffer.new
        → OnSome (B.remaining reader.old) (IsAtEnd (B.remaining reader.new))) }
{
    let mut size = 0;
    // A turn reads a byte at least, or is one that a signal interrupted. Not std's `read_exact`: it says nothing of a buffer that it doesn't fill.
    for _ in 0..u64::MAX {
        if size == buffer.len() {
            return Ok(size);
        }
        match read_part(reader, &mut buffer[size..]) {
            Ok(0) => return Ok(size),
            Ok(n) => size += n,
            Err(error) => {
                if error.kind() != ErrorKind::Interrupted {
                    return Err(error);
                }
            }
        }
    }
    Err(io::Error::from(ErrorKind::Interrupted))
}
