// The program: reads a request on standard input, and writes its planes or `refused N` on standard output. Where a read or a
// write fails it says so on standard error: a failed read is no request, so it has no refusal.
#![tactic(auto)]

ghost use Rattle.std.specs.Prelude.{◌≡◌, ℕ, length, take, IfSome, OnOk, IsErrOf};
ghost use Rattle.std.specs.Io.KnownBytes.{Appends, Keeps};
ghost use Rattle.frame_request.specs.Reply.{reply};

use standard_streams::{Failure, Stopped};
use std::io::{Read, Write};

// One byte past the largest request, 9 + 4 × 16,384 bytes. What stands further on changes no byte of the
// reply (`reply_enough` of frame_request). The program's memory is fixed, so what it reads fills part of this, and what it writes part of the output.
fn input_buffer() -> [u8; 65546]
    ensures { 65546 ≡ length result }
{
    [0; 65546]
}

// The largest output: the planes of a frame of 1 by 16,384 in 4:2:2.
fn output_buffer() -> [u8; 49152]
    ensures { 49152 ≡ length result }
{
    [0; 49152]
}

// Writes the reply to an input: all of it, or the start of it where a write fails. The input is there for the `requires`: nothing
// else is written.
fn write_reply<W: Write>(writer: &mut W, input: &[u8], bytes: &[u8]) -> Result<(), Stopped>
    requires { bytes.now ≡ reply input.now }
    ensures all { OnOk result (Appends (W.contents writer.old) (W.contents writer.new) (reply input.now)) }
    ensures start { (n : ℕ) × Appends (W.contents writer.old) (W.contents writer.new) (take n (reply input.now)) }
{
    standard_streams::write_output(writer, bytes)
}

// Reads a request to its end, and writes the reply to it: all of it, or the start of it where a write fails. Where a read fails
// nothing is written.
// The program luma_counts has this over its own reply. One function for both, and for `write_reply`, would take a trait of programs with the reply as its
// ghost member, or a closure with a clause that says its reply, beside the three clauses that it would have still: longer than the two.
fn answer<R: Read, W: Write>(reader: &mut R, writer: &mut W) -> Result<(), Failure>
    ensures answered { OnOk result (IfSome (R.remaining reader.old) (λ input.
        Appends (W.contents writer.old) (W.contents writer.new) (reply input))) }
    ensures unread { IsErrOf result Failure.CannotRead → Keeps (W.contents writer.old) (W.contents writer.new) }
    ensures cut { IsErrOf result Failure.CannotWrite → IfSome (R.remaining reader.old) (λ input.
        (n : ℕ) × Appends (W.contents writer.old) (W.contents writer.new) (take n (reply input))) }
{
    let mut input = input_buffer();
    let mut output = output_buffer();
    let size = standard_streams::read_input(reader, &mut input).map_err(|_| Failure::CannotRead)?;
    let bytes = frame_request::reply_to(&input[..size], &mut output);
    write_reply(writer, &input[..size], &output[..bytes]).map_err(|_| Failure::CannotWrite)
}

// The program luma_counts has such a main too, over its own `answer` and under its own name.
fn main(rt: HostRuntime) {
    if let Err(failure) = answer(&mut rt.stdin(), &mut rt.stdout()) {
        let _ = eprintln!(rt; "frame: {failure}");
    }
}
