// The frames of a convoy, up to 64 of them over one source and one buffer for each plane, and refusal 18: too many, or parts that do not fit.
#![tactic(auto)]

ghost use Rattle.std.specs.Prelude.{◌≡◌};
ghost use Rattle.std.specs.List.{list_any};
ghost use Rattle.convoy_parts.specs.Parts.{is_frame_outside, do_frames_overlap, any_outside, any_overlap, broken_parts};

use buffer_parts::BufferPart;
use definitions::FrameDescription;
use yuv_error::Lengths;

// The most frames of a convoy (RULES 15.2).
pub const MAX_FRAMES: usize = 64;

// A frame of a convoy: what it is converted by, `None` where codes without a meaning came for it; the stride of its source; and its parts of the four
// buffers. The frames of a convoy have no carried rows, so this is not what a desk's `FrameParts` is.
#[derive(Clone, Copy, Debug, PartialEq)]
pub struct ConvoyFrame {
    pub described: Option<FrameDescription>,
    pub stride: u32,
    pub source: BufferPart,
    pub y: BufferPart,
    pub u: BufferPart,
    pub v: BufferPart,
}

impl ConvoyFrame {
    // Whether a part of a frame reaches outside its buffer.
    fn is_outside(self, lent: Lengths) -> bool
        ensures { result ≡ is_frame_outside self lent }
    {
        !self.source.is_inside(lent.source)
            || !self.y.is_inside(lent.y)
            || !self.u.is_inside(lent.u)
            || !self.v.is_inside(lent.v)
    }

    // Whether plane parts of two frames share a byte of a buffer. Source parts may.
    fn overlaps(self, other: ConvoyFrame) -> bool
        ensures { result ≡ do_frames_overlap self other }
    {
        self.y.overlaps(other.y) || self.u.overlaps(other.u) || self.v.overlaps(other.v)
    }

    // Whether it overlaps one of these.
    fn overlaps_any(self, others: &[ConvoyFrame]) -> bool
        ensures { result ≡ list_any (do_frames_overlap self) others.now }
    {
        others.iter().any(|other| self.overlaps(*other))
    }
}

fn any_outside(frames: &[ConvoyFrame], lent: Lengths) -> bool
    ensures { result ≡ any_outside lent frames.now }
{
    frames.iter().any(|frame| frame.is_outside(lent))
}

// Whether a frame overlaps one of those after it.
fn any_overlap(frames: &[ConvoyFrame]) -> bool
    ensures { result ≡ any_overlap frames.now }
{
    // no `for`: a turn takes the frames after this one too, and `split_first` gives both without an index
    let mut rest = frames;
    while let Some((frame, later)) = rest.split_first() {
        if frame.overlaps_any(later) {
            return true;
        }
        rest = later;
    }
    false
}

// Refusal 18: more than 64 frames, a part outside its buffer, or plane parts of two frames that overlap.
#[tactic(auto, unfolding(crate::specs::Parts::broken_parts))]
pub fn is_broken(frames: &[ConvoyFrame], lent: Lengths) -> bool
    ensures { result ≡ broken_parts frames.now lent }
{
    frames.len() > MAX_FRAMES || any_outside(frames, lent) || any_overlap(frames)
}
