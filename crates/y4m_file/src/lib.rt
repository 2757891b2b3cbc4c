// The Y4M file, a header's line and pictures, and the check that decides for every byte sequence whether it is one (RULES 14.1 to 14.4). The check
// reads lines and no plane, and no number of a file is added before it is known to be a side.
#![tactic(auto)]

pub mod opened; // a file that the check let through

ghost use Rattle.std.specs.Prelude.{◌≡◌, ◌≤◌, ◌<◌, ◌^◌, length, IfSome};
ghost use Rattle.std.specs.Option.{unwrap_or};
ghost use Rattle.y4m_line.specs.Header.{is_line};
ghost use Rattle.y4m_line.specs.Line.{frame};
ghost use Rattle.y4m_file.specs.Check.{plane_bytes, picture_size};
ghost use Rattle.y4m_file.specs.Known.{CountPost};

pub use opened::Y4mRead;
use yuv_support::YuvChromaSubsampling;

// The bytes of a picture's planes. No `HeaderLine` is taken: `y4m_picture` asks it of a frame that has strides too, and no header.
pub fn plane_bytes(sampling: YuvChromaSubsampling, width: usize, height: usize) -> usize
    requires { (width ≤ 16384) × (height ≤ 16384) }
    ensures { (result ≡ plane_bytes sampling width height) × (result ≤ 2 ^ 34) }
{
    shift_file::luma_size(width, height) + 2 * shift_file::chroma_size(sampling, width, height)
}

fn is_frame(line: &[u8]) -> bool
    ensures { result ≡ is_line frame line.now }
{
    y4m_line::is_line(b"FRAME", line)
}

// The bytes of the picture at the front, its planes so many of them; none where none stands there whole.
#[tactic(auto, unfolding(crate::specs::Check::picture_size, crate::specs::Check::picture_stands))]
fn picture_size(bytes: &[u8], planes: usize) -> Option<usize>
    requires { planes ≤ 2 ^ 34 }
    ensures value { unwrap_or result 0 ≡ picture_size planes bytes.now }
    ensures inside { IfSome result (λ size. (0 < size) × (size ≤ length bytes.now)) }
{
    let end = y4m_line::line_end(bytes)?;
    let size = end + 1 + planes;
    (is_frame(&bytes[..end]) && size <= bytes.len()).then_some(size)
}

// How many pictures stand back to back to the end, if nothing else stands there.
pub(crate) fn count_pictures(bytes: &[u8], planes: usize) -> Option<usize>
    requires { planes ≤ 2 ^ 34 }
    ensures { CountPost planes bytes.now result }
{
    let mut rest = bytes;
    let mut count = 0;
    // A while loop: only the size of a picture tells where the next one starts.
    while !rest.is_empty() {
        let size = picture_size(rest, planes)?;
        rest = &rest[size..];
        count += 1;
    }
    Some(count)
}
