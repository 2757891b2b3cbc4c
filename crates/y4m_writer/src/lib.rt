// Writing a Y4M file from planes back to back (RULES 14.6). What is to be written is checked, and the output is measured, before a byte is written.
#![tactic(auto)]

mod planes; // planes that were checked

ghost use Rattle.std.specs.Prelude.{◌≡◌, ◌++◌, ◌+◌, ◌≤◌, length};
ghost use Rattle.std.proofs.lemmas.List.Edits.{sets};
ghost use Rattle.yuv_support.specs.Codes.{sampling_code};
ghost use Rattle.y4m_writer.specs.Text.{decimal};
ghost use Rattle.y4m_writer.specs.Pictures.{is_shape, can_write};
ghost use Rattle.y4m_writer.specs.Known.{code_line, header_line};
ghost use Rattle.y4m_writer.specs.Writing.{WritePost};

use planes::WholePictures;
use shift_writer::NotWritten;
use y4m_line::HeaderLine;
use yuv_error::YuvError;
use yuv_support::YuvChromaSubsampling;

// ---- the header's line, piece by piece: each is put at the front, and its length told

// A text and the decimal of a side.
#[tactic(auto, using(crate::proofs::Sides::printed_most, crate::proofs::Sides::side_put, crate::proofs::Sides::side_end))]
fn put_side(text: &[u8], side: usize, output: &mut [u8]) -> usize
    requires picture { side ≤ 16384 }
    requires room { length text.now + 5 ≤ length output.old }
    ensures output_after { output.new ≡ sets output.old 0 (text.now ++ decimal 5 side) }
    ensures value { result ≡ length (text.now ++ decimal 5 side) }
    ensures upper_bound { result ≤ length text.now + 5 }
{
    little_endian::put(output, 0, text);
    decimal::put_decimal(output, text.len(), side as u64)
}

// What follows the sides, with the newline.
fn code_line(sampling: YuvChromaSubsampling) -> &'static [u8]
    ensures { (result.now ≡ code_line sampling) × (length result.now ≤ 19) }
{
    match sampling {
        YuvChromaSubsampling::Yuv420 => b" F25:1 Ip C420jpeg\n",
        YuvChromaSubsampling::Yuv422 => b" F25:1 Ip C422\n",
    }
}

// The line.
fn put_header(header: HeaderLine, output: &mut [u8; 64]) -> usize
    requires { (header.width ≤ 16384) × (header.height ≤ 16384) }
    ensures output_after { output.new ≡ sets output.old 0 (header_line header) }
    ensures value { (result ≡ length (header_line header)) × (result ≤ 64) }
{
    let width = put_side(b"YUV4MPEG2 W", header.width, output);
    let sides = width + put_side(b" H", header.height, &mut output[width..]);
    let code = code_line(header.sampling);
    little_endian::put(output, sides, code);
    sides + code.len()
}

// ---- what may be written

// Whether a code is that of a sampling, and sides are those of a picture. The code is a number: `y4m_picture` asks this of a frame that has no sampling yet.
#[tactic(auto, unfolding(crate::specs::Pictures::is_shape))]
pub fn is_shape(code: u32, width: usize, height: usize) -> bool
    ensures { result ≡ is_shape code width height }
{
    YuvChromaSubsampling::try_from(code).is_ok()
        && shift_file::is_side(width)
        && shift_file::is_side(height)
}

// Whether the sides of a header are a picture's, and so many bytes are whole pictures.
#[tactic(auto, using(crate::proofs::Sizes::plane_least), unfolding(crate::specs::Pictures::is_shape, crate::specs::Pictures::can_write))]
fn can_write(header: HeaderLine, size: usize) -> bool
    ensures { result ≡ can_write (sampling_code header.sampling) header.width header.height size }
{
    if !(shift_file::is_side(header.width) && shift_file::is_side(header.height)) {
        return false;
    }
    let planes = y4m_file::plane_bytes(header.sampling, header.width, header.height);
    size % planes == 0
}

// Writes the file of these pictures, Y, U and V of each back to back, at the front of the output; or answers 19 where the code of the sampling or a
// side is not allowed or the bytes are not whole pictures, 16 where the output is shorter than the file, and writes nothing.
#[tactic(auto, using(crate::proofs::Whole::planes_parts))]
pub fn write_pictures(
    code: u32,
    width: usize,
    height: usize,
    pictures: &[u8],
    output: &mut [u8],
) -> Result<usize, NotWritten>
    ensures { WritePost code width height pictures.now output.old result output.new }
{
    let pictures = WholePictures::open(code, width, height, pictures)?;
    // A line has at most 42 bytes. It is made here, since there is no heap and it is measured before a byte is written.
    let mut line = [0; 64];
    let header = put_header(pictures.header, &mut line);
    let size = pictures
        .file_size(header)
        .ok_or(NotWritten::Refused(YuvError::OutputTooShort))?;
    if output.len() < size {
        return Err(NotWritten::TooShort(size));
    }
    little_endian::put(output, 0, &line[..header]);
    pictures.put(&mut output[header..]);
    Ok(size)
}
