// What is printed of a call.
ghost use Rattle.std.specs.Prelude.{◌≡◌, replicate, IfOk};
ghost use Rattle.std.specs.Fn.{iterate};
ghost use Rattle.replay.specs.Printed.{crc_of_bit, crc_of_byte, crc32};

use std::alloc::{AllocError, Global};
use std::fmt;
use yuv_error::{MismatchedSize, YuvError};

// The planes that calls write.
#[derive(Drop)]
pub struct Planes {
    pub y: Vec<u8>,
    pub u: Vec<u8>,
    pub v: Vec<u8>,
}

impl Planes {
    // Zeros, so many for each plane.
    pub fn new(alloc: Global, size: usize) -> Result<Planes, AllocError>
        ensures { IfOk result (λ planes. let zeros = replicate size 0 in
            (planes.y.items ≡ zeros) × (planes.u.items ≡ zeros) × (planes.v.items ≡ zeros)) }
    {
        let y = vec![in alloc; 0u8; size]?;
        let u = vec![in alloc; 0u8; size]?;
        let v = vec![in alloc; 0u8; size]?;
        Ok(Planes { y, u, v })
    }
}

// The digest of each.
impl fmt::Display for Planes {
    ghost use Rattle.std.specs.Prelude.{Some};
    ghost use Rattle.replay.specs.Printed.{planes_text};

    ghost output = { λ planes. Some (planes_text planes.y.items planes.u.items planes.v.items) };

    fn fmt<W: fmt::Write>(&self, f: &mut fmt::Formatter<W>) -> fmt::Result {
        let y = Digest(&self.y);
        let u = Digest(&self.u);
        let v = Digest(&self.v);
        write!(f, " y={y} u={u} v={v}")
    }
}

// What a call answered: number, expected and received, each after a space.
#[derive(Clone, Copy)]
pub struct Answer(pub Result<(), YuvError>);

impl fmt::Display for Answer {
    ghost use Rattle.std.specs.Prelude.{Some};
    ghost use Rattle.yuv_error.specs.Numbers.{numbers_of};
    ghost use Rattle.replay.specs.Printed.{answer_text};

    ghost output = { λ answer. Some (answer_text (numbers_of answer.0)) };

    fn fmt<W: fmt::Write>(&self, f: &mut fmt::Formatter<W>) -> fmt::Result {
        let numbers = error_numbers::answer_numbers(self.0);
        let number = numbers.number;
        let MismatchedSize { expected, received } = numbers.size;
        write!(f, " {number} {expected} {received}")
    }
}

// What a call that writes answered, the size that it told, and the digest of its output as it left it: all three are printed in each case. A `Result` that
// holds the size would be of `shift_writer`'s types, which nothing else here needs.
#[derive(Clone, Copy)]
pub struct Left<'a> {
    pub answer: Result<(), YuvError>,
    pub size: usize,
    pub output: &'a [u8],
}

impl fmt::Display for Left<'_> {
    ghost use Rattle.std.specs.Prelude.{Some};
    ghost use Rattle.yuv_error.specs.Numbers.{numbers_of};
    ghost use Rattle.replay.specs.Printed.{left_text};

    ghost output = { λ left. Some (left_text (numbers_of left.answer) left.size left.output.now) };

    fn fmt<W: fmt::Write>(&self, f: &mut fmt::Formatter<W>) -> fmt::Result {
        let answer = Answer(self.answer);
        let size = self.size;
        let output = Digest(self.output);
        write!(f, "{answer} size={size} output={output}")
    }
}

// The CRC-32 of some bytes, as eight digits.
#[derive(Clone, Copy)]
pub struct Digest<'a>(pub &'a [u8]);

impl fmt::Display for Digest<'_> {
    ghost use Rattle.std.specs.Prelude.{Some};
    ghost use Rattle.replay.specs.Printed.{digest_text};

    ghost output = { λ digest. Some (digest_text digest.0.now) };

    fn fmt<W: fmt::Write>(&self, f: &mut fmt::Formatter<W>) -> fmt::Result {
        let digest = crc32(self.0);
        write!(f, "{digest:08x}")
    }
}

// Each number after a space.
#[derive(Clone, Copy)]
pub struct Numbers<'a>(pub &'a [u64]);

impl fmt::Display for Numbers<'_> {
    ghost use Rattle.std.specs.Prelude.{Some};
    ghost use Rattle.replay.specs.Printed.{numbers_text};

    ghost output = { λ numbers. Some (numbers_text numbers.0.now) };

    fn fmt<W: fmt::Write>(&self, f: &mut fmt::Formatter<W>) -> fmt::Result {
        for number in self.0 {
            write!(f, " {number}")?;
        }
        Ok(())
    }
}

// What four bits leave of a CRC-32, by these bits.
const HALVES: [u32; 16] = [
    0x0000_0000,
    0x1DB7_1064,
    0x3B6E_20C8,
    0x26D9_30AC,
    0x76DC_4190,
    0x6B6B_51F4,
    0x4DB2_6158,
    0x5005_713C,
    0xEDB8_8320,
    0xF00F_9344,
    0xD6D6_A3E8,
    0xCB61_B38C,
    0x9B64_C2B0,
    0x86D3_D2D4,
    0xA00A_E278,
    0xBDBD_F21C,
];

fn crc32_of_half(crc: u32) -> u32
    ensures { result ≡ iterate crc_of_bit 4 crc }
{
    HALVES[(crc % 16) as usize] ^ crc / 16
}

#[tactic(auto, unfolding(crate::specs::Printed::crc_of_byte))]
fn crc32_of_byte(crc: u32, byte: u8) -> u32
    ensures { result ≡ crc_of_byte crc byte }
{
    crc32_of_half(crc32_of_half(crc ^ u32::from(byte)))
}

// The CRC-32 of zlib and PNG.
#[tactic(auto, unfolding(crate::specs::Printed::crc32))]
pub fn crc32(bytes: &[u8]) -> u32
    ensures { result ≡ crc32 bytes.now }
{
    let mut crc = 0xFFFF_FFFF;
    for byte in bytes {
        crc = crc32_of_byte(crc, *byte);
    }
    crc ^ 0xFFFF_FFFF
}

#[cfg(test)]
mod tests {
    use super::*;
    use std::test::Fail;

    #[test]
    fn planes_are_zeros(rt: HostRuntime) -> Result<(), Fail> {
        let planes = Planes::new(rt.alloc(), 3)?;
        assert_eq!(rt; planes.y.as_slice(), [0, 0, 0].as_slice());
        assert_eq!(rt; planes.u.as_slice(), [0, 0, 0].as_slice());
        assert_eq!(rt; planes.v.as_slice(), [0, 0, 0].as_slice());
        Ok(())
    }

    // The check value of this CRC, which its catalogues give for these nine digits.
    #[test]
    fn a_digest_is_the_crc_of_zlib(rt: HostRuntime) -> Result<(), Fail> {
        let digest = Digest(b"123456789");
        let text = format!(in rt.alloc(); "{digest}")?;
        assert_eq!(rt; text.as_str(), "cbf43926");
        Ok(())
    }
}
