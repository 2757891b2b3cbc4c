// A request of the program `frame`, from its bytes to those that answer it.
#![tactic(auto)]

ghost use Rattle.std.specs.Prelude.{◌≡◌, true, false, ◌++◌, ◌+◌, ◌*◌, ◌≤◌, ◌<◌, length, drop, IfSome, IfNone};
ghost use Rattle.definitions.specs.Painted.{Painted};
ghost use Rattle.yuv_error.specs.Numbers.{numbers_of};
ghost use Rattle.yuv_error.specs.Rules.{first_numbers, size_rules};
ghost use Rattle.definitions.specs.Image.{frame_image};
ghost use Rattle.yuv_error.specs.Lent.{taken};
ghost use Rattle.sharp_rgba_to_yuv.specs.FrameCall.{frame_rules};
ghost use Rattle.frame_request.specs.Request.{malformed, frame_of, source_stride, luma_size, chroma_size, packed_lengths};
ghost use Rattle.frame_request.specs.Request.{area_rules, output_at, output_size, RequestPost};
ghost use Rattle.frame_request.specs.Packed.{Packed};
ghost use Rattle.frame_request.specs.Reply.{refusal_line, reply, Begins};

use definitions::{FrameDescription, Window, YuvSettings};
use sharp_gamma::{SharpYuvGammaTransfer, TableRounding};
use yuv_error::YuvError;
use yuv_support::{YuvChromaSubsampling, YuvRange, YuvSourceChannels, YuvStandardMatrix};

// The most pixels of a side, and of the frame (RULES 7.3, 9.2).
const MOST_PIXELS: u32 = 16384;

// The frame that a request describes, and its source; none where it is shorter than its header or a code has no meaning.
#[tactic(auto, unfolding(crate::specs::Request::malformed, crate::specs::Request::settings_of, crate::specs::Request::frame_of))]
fn described(input: &[u8]) -> Option<(FrameDescription, &[u8])>
    ensures some { IfSome result (λ r. (malformed input.now ≡ false) × (r.0 ≡ frame_of input.now) × (r.1.now ≡ drop 9 input.now)) }
    ensures none { IfNone result (malformed input.now ≡ true) }
{
    let [
        w0,
        w1,
        h0,
        h1,
        channels,
        sampling,
        range,
        matrix,
        transfer,
        source @ ..,
    ] = input
    else {
        return None;
    };
    let settings = YuvSettings {
        channels: YuvSourceChannels::try_from(*channels as u32).ok()?,
        sampling: YuvChromaSubsampling::try_from(*sampling as u32).ok()?,
        range: YuvRange::try_from(*range as u32).ok()?,
        matrix: YuvStandardMatrix::try_from(*matrix as u32).ok()?,
        transfer: SharpYuvGammaTransfer::try_from(*transfer as u32).ok()?,
        rounding: TableRounding::Truncated, // the program has no code for it
    };
    let width = u16::from_le_bytes([*w0, *w1]) as u32;
    let height = u16::from_le_bytes([*h0, *h1]) as u32;
    let chroma_width = yuv_support::chroma_width(width as usize) as u32;
    let frame = FrameDescription {
        width,
        height,
        window: Window {
            left: 0,
            top: 0,
            source_width: width,
            source_height: height,
        },
        settings,
        y_stride: width,
        u_stride: chroma_width,
        v_stride: chroma_width,
    };
    Some((frame, source))
}

// Refusals 2 and 3.
fn check_size(width: u32, height: u32) -> Result<(), YuvError>
    ensures { numbers_of result ≡ first_numbers (size_rules width height ++ area_rules width height) }
{
    yuv_error::check_size(width, height)?;
    if width * height > MOST_PIXELS {
        return Err(YuvError::SizeTooLarge);
    }
    Ok(())
}

// A frame whose size was checked, its planes without padding.
#[derive(Clone, Copy)]
struct PackedFrame {
    frame: FrameDescription,
    ghost packed: { Packed frame },
}

impl PackedFrame {
    // The bytes of a source row.
    fn source_stride(self) -> u32
        ensures { result ≡ source_stride self.frame }
    {
        self.frame.width * self.frame.settings.channels.get_channels_count() as u32
    }

    // The bytes of Y. This and the next are a product each, as `shift_file` has of the sides of a record: taking those would be no shorter, and would
    // bring the shift file into the program.
    fn luma_size(self) -> usize
        ensures { result ≡ luma_size self.frame }
    {
        self.frame.width as usize * self.frame.height as usize
    }

    // The bytes of U, and of V.
    fn chroma_size(self) -> usize
        ensures { result ≡ chroma_size self.frame }
    {
        let width = yuv_support::chroma_width(self.frame.width as usize);
        width
            * self
                .frame
                .settings
                .sampling
                .chroma_height(self.frame.height as usize)
    }

    // The frame call, in the output itself: Y at its start, U behind it, and V behind that.
    fn convert(self, source: &[u8], output: &mut [u8; 49152]) -> Result<(), YuvError>
        ensures result_value { numbers_of result ≡ first_numbers (frame_rules self.frame (source_stride self.frame) (packed_lengths self.frame (length source.now))) }
        ensures painted { Painted (taken result (output_size self.frame)) (output_at self.frame (frame_image self.frame (source_stride self.frame) source.now))
            output.old output.new }
    {
        let luma = self.luma_size();
        let chroma = self.chroma_size();
        let (y, rest) = output.split_at_mut(luma);
        let (u, rest) = rest.split_at_mut(chroma);
        let v = &mut rest[..chroma];
        sharp_rgba_to_yuv::rgbx_to_sharp_yuv(self.frame, source, self.source_stride(), y, u, v)
    }
}

// Answers a request: its planes in the first bytes of the output, so many, or a refusal and no byte written.
pub fn answer_request(input: &[u8], output: &mut [u8; 49152]) -> Result<usize, YuvError>
    ensures { RequestPost input.now output.old result output.new }
{
    let (frame, source) = described(input).ok_or(YuvError::MalformedRequest)?;
    check_size(frame.width, frame.height)?;
    let frame = PackedFrame { frame };
    frame.convert(source, output)?;
    Ok(frame.luma_size() + 2 * frame.chroma_size())
}

// Puts the line of a refusal at the start of the output, and answers how many bytes it has.
fn put_refusal(number: u32, output: &mut [u8; 49152]) -> usize
    requires { number < 100 }
    ensures { Begins (refusal_line number) output.old result output.new }
{
    output[..8].copy_from_slice(b"refused ");
    let end = decimal::put_decimal(output, 8, number as u64);
    output[end] = b'\n';
    end + 1
}

// Puts all that the program writes for an input at the start of the output: the planes, or the line of the refusal. Answers how
// many bytes that is; the output past them is as it was.
pub fn reply_to(input: &[u8], output: &mut [u8; 49152]) -> usize
    ensures { Begins (reply input.now) output.old result output.new }
{
    match answer_request(input, output) {
        Ok(bytes) => bytes,
        Err(e) => put_refusal(error_numbers::error_numbers(e).number, output),
    }
}
