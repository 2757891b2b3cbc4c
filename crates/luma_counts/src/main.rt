// The program: reads a range code and a matrix code on standard input, and writes how many colours have each luma, or `refused 1`,
// on standard output. Where a read or a write fails it says so on standard error: a failed read is no request, so it has no refusal.
#![tactic(auto)]

ghost use Rattle.std.specs.Prelude.{◌≡◌, ℕ, length, take, IfSome, OnOk, IsErrOf};
ghost use Rattle.std.specs.Io.KnownBytes.{Appends, Keeps};
ghost use Rattle.counts_request.specs.Reply.{reply};

use standard_streams::{Failure, Stopped};
use std::io::{Read, Write};

// The largest output: 256 lines of 3 digits, a space, 8 digits and a newline. The program's memory is fixed, so what it writes fills part of this.
fn output_buffer() -> [u8; 3328]
    ensures { 3328 ≡ length result }
{
    [0; 3328]
}

// Writes the reply to an input: all of it, or the start of it where a write fails. The input is there for the `requires`: nothing
// else is written.
fn write_reply<W: Write>(writer: &mut W, input: &[u8], bytes: &[u8]) -> Result<(), Stopped>
    requires { bytes.now ≡ reply input.now }
    ensures all { OnOk result (Appends (W.contents writer.old) (W.contents writer.new) (reply input.now)) }
    ensures start { (n : ℕ) × Appends (W.contents writer.old) (W.contents writer.new) (take n (reply input.now)) }
{
    standard_streams::write_output(writer, bytes)
}

// Reads a request to its end, and writes the reply to it: all of it, or the start of it where a write fails. Where a read fails
// nothing is written.
// The program frame has this over its own reply. One function for both, and for `write_reply`, would take a trait of programs with the reply as its
// ghost member, or a closure with a clause that says its reply, beside the three clauses that it would have still: longer than the two.
fn answer<R: Read, W: Write>(reader: &mut R, writer: &mut W) -> Result<(), Failure>
    ensures answered { OnOk result (IfSome (R.remaining reader.old) (λ input.
        Appends (W.contents writer.old) (W.contents writer.new) (reply input))) }
    ensures unread { IsErrOf result Failure.CannotRead → Keeps (W.contents writer.old) (W.contents writer.new) }
    ensures cut { IsErrOf result Failure.CannotWrite → IfSome (R.remaining reader.old) (λ input.
        (n : ℕ) × Appends (W.contents writer.old) (W.contents writer.new) (take n (reply input))) }
{
    let mut input = [0; 3]; // one byte past a request: what stands further on changes nothing (`reply_enough` of counts_request)
    let mut output = output_buffer();
    let size = standard_streams::read_input(reader, &mut input).map_err(|_| Failure::CannotRead)?;
    let bytes = counts_request::reply_to(&input[..size], &mut output);
    write_reply(writer, &input[..size], &output[..bytes]).map_err(|_| Failure::CannotWrite)
}

// The program frame has such a main too, over its own `answer` and under its own name.
fn main(rt: HostRuntime) {
    if let Err(failure) = answer(&mut rt.stdin(), &mut rt.stdout()) {
        let _ = eprintln!(rt; "luma_counts: {failure}");
    }
}
