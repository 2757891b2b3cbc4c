// The frame call: the Rust's rgbx_to_sharp_yuv, over lent slices beside a plain description. Y, U and V are three slices, as its callers have them, from
// C too: the contract speaks of y, u and v one by one, so a struct of the three would be made for a call and taken apart in it.
#![tactic(auto)]

ghost use Rattle.std.specs.Prelude.{◌≡◌, OnOk};
ghost use Rattle.yuv_error.specs.Numbers.{numbers_of};
ghost use Rattle.yuv_error.specs.Rules.{first_numbers};
ghost use Rattle.yuv_error.specs.Lent.{source_of};
ghost use Rattle.yuv_error.specs.Known.{Sized, WholeRows, PlanesLent};
ghost use Rattle.sharp_rgba_to_yuv.specs.FrameCall.{frame_call, frame_rules, FramePost};

use definitions::{Band, FrameDescription};
use yuv_error::{Lengths, YuvError};

// Refusals 2, 3, 4, 14 and 6 to 12.
fn check_frame(frame: FrameDescription, stride: u32, lent: Lengths) -> Result<(), YuvError>
    ensures numbers { numbers_of result ≡ first_numbers (frame_rules frame stride lent) }
    ensures sized { OnOk result (Sized frame) }
    ensures whole { OnOk result (WholeRows (source_of frame frame.window.source_height stride lent.source) × PlanesLent frame lent.y lent.u lent.v) }
{
    yuv_error::check_opening(frame)?;
    yuv_error::check_lent(frame, frame.window.source_height as usize, stride, lent)
}

// Converts a whole frame, or answers one numbered refusal and writes no byte.
pub fn rgbx_to_sharp_yuv(
    frame: FrameDescription,
    source: &[u8],
    stride: u32,
    y: &mut [u8],
    u: &mut [u8],
    v: &mut [u8],
) -> Result<(), YuvError>
    ensures { FramePost (frame_call frame stride source.now y.old u.old v.old
        result y.new u.new v.new) }
{
    let lent = Lengths {
        source: source.len(),
        y: y.len(),
        u: u.len(),
        v: v.len(),
    };
    check_frame(frame, stride, lent)?;
    let band = Band {
        frame,
        done: 0,
        rows: frame.height,
        stride,
    };
    let at = frame.window.top as usize * stride as usize;
    // no row is above the first, so what stands for the carried row is never read
    band_planes::sharpen_band(band, &source[at..], source, y, u, v);
    Ok(())
}
