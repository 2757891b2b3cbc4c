// A convoy: many frames in one call, with the effect of single calls in order, up to the first that is refused.
// Y, U and V come as three slices, as C lends them: each contract speaks of y, u and v one by one, so a struct of the three would be made for a call
// and taken apart in it.
#![tactic(auto)]

ghost use Rattle.yuv_error.specs.Lent.{lengths_of};
ghost use Rattle.convoy.specs.Run.{planes_of, convoy_call, ConvoyPost, Run};
ghost use Rattle.convoy.specs.Called.{FrameInside, AllInside, Called};

use convoy_parts::ConvoyFrame;
use yuv_error::{Lengths, YuvError};

// What a convoy is answered: how many frames are finished, which is the place from 0 of the one that was refused, and its refusal. By RULES 15.3 and 10.9
// how many are finished is told beside a refusal too, so this is no `Result`. `Told` of `call_numbers` has the same fields, and is what C is told, of rows or of
// frames: this crate knows nothing of C's numbers, and `tell_convoy` of `convoy_calls` makes the one of the other.
#[derive(Clone, Copy, Debug, PartialEq, Eq)]
pub struct ConvoyAnswer {
    pub answer: Result<(), YuvError>,
    pub done: usize,
}

// The single call of a frame, on its parts of the buffers. They are sliced here: a method of `BufferPart` that answered a part lent by `&mut` would need a
// contract on what comes back, which the slice expression has.
#[tactic(auto, using(crate::proofs::Calls::unmade))]
fn convert_frame(
    frame: ConvoyFrame,
    source: &[u8],
    y: &mut [u8],
    u: &mut [u8],
    v: &mut [u8],
) -> Result<(), YuvError>
    requires { FrameInside frame (lengths_of source.now y.old u.old v.old) }
    ensures { Called frame source.now (planes_of y.old u.old v.old)
        result (planes_of y.new u.new v.new) }
{
    let past_source = frame.source.offset + frame.source.length;
    let past_y = frame.y.offset + frame.y.length;
    let past_u = frame.u.offset + frame.u.length;
    let past_v = frame.v.offset + frame.v.length;
    let description = frame.described.ok_or(YuvError::MalformedRequest)?;
    sharp_rgba_to_yuv::rgbx_to_sharp_yuv(
        description,
        &source[frame.source.offset..past_source],
        frame.stride,
        &mut y[frame.y.offset..past_y],
        &mut u[frame.u.offset..past_u],
        &mut v[frame.v.offset..past_v],
    )
}

// The frames in order, up to the first that is refused.
fn convert_frames(
    frames: &[ConvoyFrame],
    source: &[u8],
    y: &mut [u8],
    u: &mut [u8],
    v: &mut [u8],
) -> ConvoyAnswer
    requires { AllInside frames.now (lengths_of source.now y.old u.old v.old) }
    ensures { Run source.now frames.now (planes_of y.old u.old v.old)
        result.answer result.done (planes_of y.new u.new v.new) }
{
    for (done, frame) in frames.iter().enumerate() {
        // no `?`: what is returned is no `Result`
        if let Err(refusal) = convert_frame(*frame, source, y, u, v) {
            return ConvoyAnswer {
                answer: Err(refusal),
                done,
            };
        }
    }
    ConvoyAnswer {
        answer: Ok(()),
        done: frames.len(),
    }
}

// Converts the frames of a convoy as single calls in order would, or answers 18 before any is begun. The first frame that is refused ends it: its
// parts and those of later frames are not written.
pub fn convert_convoy(
    frames: &[ConvoyFrame],
    source: &[u8],
    y: &mut [u8],
    u: &mut [u8],
    v: &mut [u8],
) -> ConvoyAnswer
    ensures { ConvoyPost (convoy_call frames.now source.now (planes_of y.old u.old v.old)
        result (planes_of y.new u.new v.new)) }
{
    let lent = Lengths {
        source: source.len(),
        y: y.len(),
        u: u.len(),
        v: v.len(),
    };
    if convoy_parts::is_broken(frames, lent) {
        return ConvoyAnswer {
            answer: Err(YuvError::PartsMismatch),
            done: 0,
        };
    }
    convert_frames(frames, source, y, u, v)
}
