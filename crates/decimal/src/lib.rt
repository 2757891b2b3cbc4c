// Numbers in decimal digits.
#![tactic(auto)]

ghost use Rattle.std.specs.Prelude.{◌≡◌, ◌+◌, ◌≤◌, length, decimal};
ghost use Rattle.std.proofs.lemmas.List.Edits.{sets};

// Writes a number from a place on, in the digits that std prints, and answers the place behind them. By hand: there is no heap, std's writer into a slice does
// not say which bytes it leaves, and the kit's `itoa` would be one library more to trust.
#[tactic(auto, using(crate::proofs::Digits::one_digit, crate::proofs::Digits::longer, crate::proofs::Digits::put_one, crate::proofs::Digits::put_more))]
pub fn put_decimal(output: &mut [u8], at: usize, number: u64) -> usize
    requires { at + length (decimal number) ≤ length output.old }
    ensures written { output.new ≡ sets output.old at (decimal number) }
    ensures end { result ≡ at + length (decimal number) }
{
    if number < 10 {
        output[at] = b'0' + number as u8;
        return at + 1;
    }
    let last = put_decimal(output, at, number / 10);
    output[last] = b'0' + (number % 10) as u8;
    last + 1
}
