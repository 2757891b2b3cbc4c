// What a program that replays a list does with reads and writes that fail, and what it ends with.
ghost use Rattle.std.specs.Prelude.{◌≡◌, ◌≢◌, Ok, Err, OnOk, IfOk, IfErr, IsErr, length};
ghost use Rattle.std.specs.IoError.{error_kind};
ghost use Rattle.std.specs.Io.{WritesAtMost};
ghost use Rattle.std.specs.Io.KnownBytes.{WriteAppends};
ghost use Rattle.std.specs.declared.io.ErrorKind.TheVariants.{OutOfMemory, Interrupted};

use std::alloc::AllocError;
use std::io;
use std::io::{ErrorKind, Write};

// A read or a write that failed is passed over: what was written is what is held against the stored lines. Memory that ran out is an error, of a type that is
// printed in a word: the text of every kind of error would take 32 KiB of each program.
pub fn passed_over<T: Drop>(made: io::Result<T>) -> Result<(), AllocError>
    ensures done { OnOk made (result ≡ Ok tt) }
    ensures memory { IfErr made (λ e. error_kind e ≡ OutOfMemory → IsErr result) }
    ensures passed { IfErr made (λ e. error_kind e ≢ OutOfMemory → result ≡ Ok tt) }
{
    match made {
        Err(error) if error.kind() == ErrorKind::OutOfMemory => Err(AllocError),
        _ => Ok(()),
    }
}

// A writer that goes on where the one below it refuses bytes: these are dropped, and the next ones are written. So a stream that takes nothing for a while
// has gaps, and the lines behind them. What it holds is not known.
#[derive(Drop)]
pub struct Lossy<W>(pub W);

// How many of so many bytes are done with: those that were taken, or all where none was. A write that a signal interrupted is to be made again.
fn done_with(written: io::Result<usize>, size: usize) -> io::Result<usize>
    ensures taken { OnOk written (written ≢ Ok 0 → result ≡ written) }
    ensures none_taken { written ≡ Ok 0 → result ≡ Ok size }
    ensures again { IfErr written (λ e. error_kind e ≡ Interrupted → result ≡ Err e) }
    ensures refused { IfErr written (λ e. error_kind e ≢ Interrupted → result ≡ Ok size) }
{
    match written {
        Ok(0) => Ok(size),
        Err(error) if error.kind() != ErrorKind::Interrupted => Ok(size),
        _ => written,
    }
}

impl<W: Write> Write for Lossy<W> {
    fn write(&mut self, buf: &[u8]) -> io::Result<usize>
        ensures bound { WritesAtMost result buf.now }
        ensures bytes { WriteAppends None None result buf.now }
        ensures some { IfOk result (λ n. n ≡ 0 → length buf.now ≡ 0) }
        ensures goes_on { IfErr result (λ e. error_kind e ≡ Interrupted) }
    {
        done_with(self.0.write(buf), buf.len())
    }

    fn flush(&mut self) -> io::Result<()>
        ensures { result ≡ Ok tt }
    {
        let _ = self.0.flush();
        Ok(())
    }
}

#[cfg(test)]
mod tests {
    use super::*;
    use std::test::Fail;

    // Keeps what it is given, but refuses the writes between its first and its last.
    #[derive(Drop)]
    struct Full {
        held: Vec<u8>,
        calls: u32,
    }

    impl Write for Full {
        fn write(&mut self, buf: &[u8]) -> io::Result<usize> {
            self.calls = self.calls.wrapping_add(1);
            match self.calls {
                1 | 5 => self.held.write(buf),
                2 => Err(io::Error::from(ErrorKind::WouldBlock)),
                3 => Err(io::Error::from(ErrorKind::Interrupted)),
                _ => Ok(0),
            }
        }

        fn flush(&mut self) -> io::Result<()> {
            Err(io::Error::from(ErrorKind::BrokenPipe))
        }
    }

    #[test]
    fn what_is_refused_is_dropped_and_writing_goes_on(rt: HostRuntime) -> Result<(), Fail> {
        let mut out = Lossy(Full {
            held: Vec::new(rt.alloc()),
            calls: 0,
        });
        out.write_all(b"1 0\n")?;
        out.write_all(b"2 0\n")?;
        // The first write of this one is interrupted, and the second takes nothing.
        out.write_all(b"3 0\n")?;
        out.flush()?;
        out.write_all(b"4 0\n")?;
        assert_eq!(rt; out.0.held.as_slice(), b"1 0\n4 0\n".as_slice());
        Ok(())
    }
}
