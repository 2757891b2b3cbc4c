// A band served at the front desk (RULES 16.4): the band call on the frame's parts of the shared buffers.
// The buffers come as slices of their own, as C lends them: each contract speaks of y, u and v one by one, so a struct of
// them would be made for a call and taken apart in it.
#![tactic(auto)]

ghost use Rattle.desk_bands.specs.Buffers.{buffers_of, AllInside, Converted, ServePost};

use band_calls::FrameAnswer;
use desk_places::{BufferLengths, OpenFrame, WaitingBand};
use yuv_error::YuvError;

// The band call on the frame's parts of the buffers, all of which lie inside. They are sliced here, as crate `convoy` does and says why.
fn band_in_parts(
    frame: OpenFrame,
    band: WaitingBand,
    source: &[u8],
    y: &mut [u8],
    u: &mut [u8],
    v: &mut [u8],
    carried: &mut [u8],
) -> FrameAnswer
    requires { AllInside frame band (buffers_of source.now y.old u.old v.old carried.old) }
    ensures { Converted frame band
        (buffers_of source.now y.old u.old v.old carried.old) result
        (buffers_of source.now y.new u.new v.new carried.new) }
{
    let parts = frame.parts;
    let source_end = band.source.offset + band.source.length;
    let y_end = parts.y.offset + parts.y.length;
    let u_end = parts.u.offset + parts.u.length;
    let v_end = parts.v.offset + parts.v.length;
    let carried_end = parts.carried.offset + parts.carried.length;
    frame.state.band(
        band.rows,
        &source[band.source.offset..source_end],
        band.stride,
        &mut y[parts.y.offset..y_end],
        &mut u[parts.u.offset..u_end],
        &mut v[parts.v.offset..v_end],
        &mut carried[parts.carried.offset..carried_end],
    )
}

// The same, or refusal 18 where a part of the frame or of the band reaches outside its buffer.
pub fn serve_band(
    frame: OpenFrame,
    band: WaitingBand,
    source: &[u8],
    y: &mut [u8],
    u: &mut [u8],
    v: &mut [u8],
    carried: &mut [u8],
) -> FrameAnswer
    ensures { ServePost frame band
        (buffers_of source.now y.old u.old v.old carried.old) result
        (buffers_of source.now y.new u.new v.new carried.new) }
{
    let lens = BufferLengths {
        y: y.len(),
        u: u.len(),
        v: v.len(),
        carried: carried.len(),
    };
    if band.source.is_inside(source.len()) && frame.parts.are_inside(lens) {
        band_in_parts(frame, band, source, y, u, v, carried)
    } else {
        FrameAnswer {
            state: frame.state,
            answer: Err(YuvError::PartsMismatch),
        }
    }
}
