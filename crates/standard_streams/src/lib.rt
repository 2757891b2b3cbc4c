// Standard input to its end, and standard output to the last byte, for programs that answer one request. Generic over the reader
// and the writer, so that the contracts name the bytes: those of a reader of known bytes, those that a writer holds. What the
// operating system itself gives or takes no contract says.
#![tactic(auto)]

ghost use Rattle.std.specs.Prelude.{◌≡◌, ℕ, ◌≤◌, ◌<◌, length, take, IfOk, IfErr, OnOk};
ghost use Rattle.std.specs.Io.KnownBytes.{Appends, Consumes, IsAtEnd};

use std::error::Error;
use std::io::{ErrorKind, Read, Write};
use std::{fmt, io};

// How many calls that a signal interrupts are made again.
const RETRIES: u32 = 1000;

// A read or a write failed, when so many bytes were read or written. Nothing prints it: a program says its own `Failure`.
#[derive(Clone, Copy, Debug)]
pub struct Stopped {
    pub size: usize,
    pub error: io::Error,
}

// What fails in a program that answers a request, beside a request that is refused.
#[derive(Clone, Copy, Debug, PartialEq, Eq)]
pub enum Failure {
    CannotRead,
    CannotWrite,
}

impl fmt::Display for Failure {
    ghost use Rattle.std.specs.Prelude.{Some};
    ghost use Rattle.standard_streams.specs.Failures.{failure_text};

    ghost output = { λ failure. Some (failure_text failure) };

    fn fmt<W: fmt::Write>(&self, f: &mut fmt::Formatter<W>) -> fmt::Result {
        match self {
            Failure::CannotRead => write!(f, "cannot read standard input"),
            Failure::CannotWrite => write!(f, "cannot write standard output"),
        }
    }
}

impl Error for Failure {}

// Reads to the end, or until the buffer is full, and answers how many bytes it read.
pub fn read_input<R: Read>(reader: &mut R, buffer: &mut [u8]) -> Result<usize, Stopped>
    ensures within { IfOk result (λ size. size ≤ length buffer.new) }
    ensures bytes { IfOk result (λ size.
        Consumes (R.remaining reader.old) (R.remaining reader.new) (take size buffer.new)) }
    ensures whole { IfOk result (λ size. size < length buffer.new → IsAtEnd (R.remaining reader.new)) }
    ensures cut_within { IfErr result (λ stopped. stopped.size ≤ length buffer.new) }
    ensures cut { IfErr result (λ stopped.
        Consumes (R.remaining reader.old) (R.remaining reader.new) (take stopped.size buffer.new)) }
{
    let mut size = 0;
    let mut retries = RETRIES;
    // A while loop: a read gives as many bytes as it likes. Not std's `read_to_end`: it needs a heap, and makes an interrupted call again up to 2^64 times.
    while size < buffer.len() {
        match reader.read(&mut buffer[size..]) {
            Ok(0) => return Ok(size),
            Ok(n) => size += n,
            Err(error) => {
                if retries == 0 || error.kind() != ErrorKind::Interrupted {
                    return Err(Stopped { size, error });
                }
                retries -= 1;
            }
        }
    }
    Ok(size)
}

// Writes all of `bytes`. Where a write fails, what is written is the start of them.
pub fn write_output<W: Write>(writer: &mut W, bytes: &[u8]) -> Result<(), Stopped>
    ensures all { OnOk result (Appends (W.contents writer.old) (W.contents writer.new) bytes.now) }
    ensures start { (n : ℕ) × (n ≤ length bytes.now)
        × Appends (W.contents writer.old) (W.contents writer.new) (take n bytes.now) }
    ensures cut_within { IfErr result (λ stopped. stopped.size ≤ length bytes.now) }
    ensures cut { IfErr result (λ stopped.
        Appends (W.contents writer.old) (W.contents writer.new) (take stopped.size bytes.now)) }
{
    let mut done = 0;
    let mut retries = RETRIES;
    // A while loop: a write takes as many bytes as it likes. Not std's `write_all`: it makes an interrupted call again up to 2^64 times, and says
    // nothing of what was written before an error.
    while done < bytes.len() {
        match writer.write(&bytes[done..]) {
            Ok(0) => {
                let error = io::Error::from(ErrorKind::WriteZero);
                return Err(Stopped { size: done, error });
            }
            Ok(n) => done += n,
            Err(error) => {
                if retries == 0 || error.kind() != ErrorKind::Interrupted {
                    return Err(Stopped { size: done, error });
                }
                retries -= 1;
            }
        }
    }
    Ok(())
}

#[cfg(test)]
mod tests {
    use super::*;

    // A byte a call; every other call is interrupted, and one fails.
    #[derive(Drop)]
    struct Halting {
        calls: u32,
        fails_at: u32,
    }

    impl Read for Halting {
        fn read(&mut self, buf: &mut [u8]) -> io::Result<usize> {
            self.calls = self.calls.wrapping_add(1);
            if self.calls == self.fails_at {
                return Err(io::Error::from(ErrorKind::Other));
            }
            if self.calls % 2 == 0 {
                return Err(io::Error::from(ErrorKind::Interrupted));
            }
            if buf.is_empty() {
                return Ok(0);
            }
            buf[0] = 7;
            Ok(1)
        }
    }

    #[test]
    fn a_failed_read_is_no_end(rt: HostRuntime) {
        let mut buffer = [0; 8];
        let mut reader = Halting {
            calls: 0,
            fails_at: 5,
        };
        let read = read_input(&mut reader, &mut buffer);
        assert_eq!(rt; read.map_err(|stopped| stopped.size), Err(2));
    }

    #[test]
    fn interrupted_reads_are_made_again(rt: HostRuntime) {
        let mut buffer = [0; 8];
        let mut reader = Halting {
            calls: 0,
            fails_at: 100,
        };
        let read = read_input(&mut reader, &mut buffer);
        assert!(rt; read.is_ok());
        assert_eq!(rt; buffer, [7; 8]);
    }

    #[test]
    fn all_of_a_slice_is_read_and_written(rt: HostRuntime) -> Result<(), Stopped> {
        let mut buffer = [0; 8];
        let mut reader: &[u8] = b"hello";
        let size = read_input(&mut reader, &mut buffer)?;
        let mut kept = Vec::new(rt.alloc());
        write_output(&mut kept, &buffer[..size])?;
        assert_eq!(rt; kept.as_slice(), b"hello".as_slice());
        Ok(())
    }
}
