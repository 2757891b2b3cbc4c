// A request of the program `luma_counts`, from its bytes to those that answer it.
#![tactic(auto)]

ghost use Rattle.std.specs.Prelude.{◌≡◌, true, cond, [], ◌∷◌, ℕ, ◌+◌, ◌≤◌, ◌<◌, length, get_or, Some, None};
ghost use Rattle.yuv_support.specs.Matrix.{accepted};
ghost use Rattle.colour_counts.specs.Counts.{count_of};
ghost use Rattle.frame_request.specs.Reply.{Begins};
ghost use Rattle.counts_request.specs.Reply.{range_of, matrix_of, malformed, decimal, line, lines, reply};
ghost use Rattle.counts_request.specs.Puts.{PutsInto};

use yuv_support::{YuvRange, YuvStandardMatrix};

// The range and matrix that an input asks for, if it is two bytes whose codes have a meaning.
#[tactic(auto, unfolding(crate::specs::Reply::malformed))]
fn asked(input: &[u8]) -> Option<(YuvRange, YuvStandardMatrix)>
    ensures { result ≡ cond (malformed input.now) None (Some (range_of input.now, matrix_of input.now)) }
{
    let &[range, matrix] = input else {
        return None;
    };
    let range = YuvRange::try_from(range as u32).ok()?;
    let matrix = YuvStandardMatrix::try_from(matrix as u32).ok()?;
    Some((range, matrix))
}

// A text that is being put into the output, which it fills up to `at`: there is no heap.
#[derive(Drop)]
struct Text<'a> {
    output: &'a mut [u8],
    at: usize,
}

impl Text<'_> {
    fn put_byte(&mut self, byte: u8)
        requires { self.old.at < length self.old.output.now }
        ensures { PutsInto (byte ∷ []) self.old self.new }
    {
        self.output[self.at] = byte;
        self.at += 1;
    }

    fn put_decimal(&mut self, number: u32)
        requires { self.old.at + length (decimal number) ≤ length self.old.output.now }
        ensures { PutsInto (decimal number) self.old self.new }
    {
        self.at = decimal::put_decimal(self.output, self.at, number as u64);
    }

    #[tactic(auto, using(crate::proofs::Lines::length_of_line))]
    fn put_line(&mut self, luma: u32, count: u32)
        requires { self.old.at + length (line luma count) ≤ length self.old.output.now }
        ensures { PutsInto (line luma count) self.old self.new }
    {
        self.put_decimal(luma);
        self.put_byte(b' ');
        self.put_decimal(count);
        self.put_byte(b'\n');
    }
}

// The lines of the lumas, in order, at the start of the output. 13 bytes hold a line: 3 digits, a space, 8 digits and the newline.
#[tactic(auto, using(crate::proofs::Lines::line_size))]
fn put_lines(counts: &[u32; 256], output: &mut [u8]) -> usize
    requires by_index { (y : ℕ) → y < 256 → get_or counts.now y 0 < 100000000 }
    requires in_bounds { 3328 ≤ length output.old }
    ensures { Begins (lines (λ y. get_or counts.now y 0) 256) output.old result output.new }
{
    let mut text = Text { output, at: 0 };
    for (luma, &count) in counts.iter().enumerate() {
        text.put_line(luma as u32, count);
    }
    text.at
}

// The lines of a matrix and range.
fn put_counts(range: YuvRange, matrix: YuvStandardMatrix, output: &mut [u8]) -> usize
    requires matrix_value { accepted matrix ≡ true }
    requires in_bounds { 3328 ≤ length output.old }
    ensures { Begins (lines (count_of range matrix) 256) output.old result output.new }
{
    let mut counts = [0; 256];
    let _ = colour_counts::colour_counts(range, matrix, &mut counts); // never refused, as the matrix is accepted
    put_lines(&counts, output)
}

// Puts all that the program writes for an input at the start of the output: a line for each luma, or `refused 1`. Answers how many
// bytes that is; the output past them is as it was.
pub fn reply_to(input: &[u8], output: &mut [u8; 3328]) -> usize
    ensures { Begins (reply input.now) output.old result output.new }
{
    match asked(input) {
        Some((range, matrix)) => put_counts(range, matrix, output),
        None => {
            output[..10].copy_from_slice(b"refused 1\n");
            10
        }
    }
}
