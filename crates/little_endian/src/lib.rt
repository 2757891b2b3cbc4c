// Numbers in bytes, low byte first (RULES 11.1).
#![tactic(auto)]

ghost use Rattle.std.specs.Prelude.{◌≡◌, ◌+◌, ◌≤◌, length, take, drop};
ghost use Rattle.std.proofs.lemmas.List.Edits.{sets};
ghost use Rattle.little_endian.specs.Number.{low_bytes, number_in};

// So many bytes from a place on, as an array.
pub fn array_at<const N: usize>(bytes: &[u8], at: usize) -> [u8; N]
    requires { at + N ≤ length bytes.now }
    ensures { result ≡ take N (drop at bytes.now) }
{
    <[u8; N]>::try_from(&bytes[at..at + N]).unwrap()
}

// A number of two, four or eight bytes: public names, a line each over the type's own `from_le_bytes`.
#[tactic(auto, unfolding(crate::specs::Number::number_in))]
pub fn read_u16(bytes: &[u8], at: usize) -> u16
    requires { at + 2 ≤ length bytes.now }
    ensures { result ≡ number_in 2 (drop at bytes.now) }
{
    u16::from_le_bytes(array_at(bytes, at))
}

#[tactic(auto, unfolding(crate::specs::Number::number_in))]
pub fn read_u32(bytes: &[u8], at: usize) -> u32
    requires { at + 4 ≤ length bytes.now }
    ensures { result ≡ number_in 4 (drop at bytes.now) }
{
    u32::from_le_bytes(array_at(bytes, at))
}

#[tactic(auto, unfolding(crate::specs::Number::number_in))]
pub fn read_u64(bytes: &[u8], at: usize) -> u64
    requires { at + 8 ≤ length bytes.now }
    ensures { result ≡ number_in 8 (drop at bytes.now) }
{
    u64::from_le_bytes(array_at(bytes, at))
}

// Writes a run of items from a place on. By a loop: of std's `copy_from_slice` the library would ask libc for memmove, where this is memcpy.
// The place is a parameter here and in `write_number`: which items of the output change is what they say.
pub fn put<T: Copy>(output: &mut [T], at: usize, items: &[T])
    requires { at + length items.now ≤ length output.old }
    ensures { output.new ≡ sets output.old at items.now }
{
    for (i, &item) in items.iter().enumerate() {
        output[at + i] = item;
    }
}

// Writes the `size` low bytes of a number; past its eight bytes stands 0.
pub fn write_number(output: &mut [u8], at: usize, number: u64, size: usize)
    requires { at + size ≤ length output.old }
    ensures { output.new ≡ sets output.old at (low_bytes size number) }
{
    let bytes = number.to_le_bytes();
    let known = size.min(bytes.len());
    output[at..at + known].copy_from_slice(&bytes[..known]);
    output[at + known..at + size].fill(0);
}
