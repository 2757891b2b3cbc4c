// The front desk's places (RULES 16.1): for each of 32 cameras no frame, an open frame, or one with a band that waits; which parts of the
// shared buffers they take, and whose turn it is.
#![tactic(auto)]

ghost use Rattle.std.specs.Prelude.{◌≡◌};
ghost use Rattle.std.specs.List.{list_any};
ghost use Rattle.desk_places.specs.Places.{are_inside, overlap_parts, overlaps_slot, overlaps_open, offered, next_waiting, after_band};

use band_calls::FrameState;
use buffer_parts::BufferPart;

// Where a frame's planes and its carried row stand in the shared buffers. A frame of a convoy has a part of the source and no carried row.
#[derive(Clone, Copy, Debug, PartialEq, Eq)]
pub struct FrameParts {
    pub y: BufferPart,
    pub u: BufferPart,
    pub v: BufferPart,
    pub carried: BufferPart,
}

// How long the buffers of the planes and of the carried rows are. `Lengths` of `yuv_error` has the source in place of the carried rows, for other rules.
#[derive(Clone, Copy, Debug, PartialEq, Eq)]
pub struct BufferLengths {
    pub y: usize,
    pub u: usize,
    pub v: usize,
    pub carried: usize,
}

// A frame that is being converted, and its parts of the buffers.
#[derive(Clone, Copy, Debug, PartialEq)]
pub struct OpenFrame {
    pub state: FrameState,
    pub parts: FrameParts,
}

// A band that waits: its rows, `stride` bytes apart in a part of the source buffer.
#[derive(Clone, Copy, Debug, PartialEq, Eq)]
pub struct WaitingBand {
    pub rows: u32,
    pub stride: u32,
    pub source: BufferPart,
}

// What stands at a camera's number: no frame, a frame with no band waiting, or a frame with one. Three states, none of which says that something is
// missing: so this is no `Option`, and the functions that answer one, here and in `desk_numbers`, answer what a camera's number comes to.
#[derive(Clone, Copy, Debug, PartialEq)]
pub enum Slot {
    Free,
    Idle(OpenFrame),
    Waiting(OpenFrame, WaitingBand),
}

// Whose turn it is, with its frame and its band.
#[derive(Clone, Copy, Debug, PartialEq)]
pub struct Turn {
    pub camera: usize,
    pub frame: OpenFrame,
    pub band: WaitingBand,
}

impl FrameParts {
    // Whether each part lies in its buffer.
    pub fn are_inside(self, lens: BufferLengths) -> bool
        ensures { result ≡ are_inside self lens }
    {
        self.y.is_inside(lens.y)
            && self.u.is_inside(lens.u)
            && self.v.is_inside(lens.v)
            && self.carried.is_inside(lens.carried)
    }

    // Whether two frames' parts of one buffer overlap, in any of the four.
    fn overlap(self, other: FrameParts) -> bool
        ensures { result ≡ overlap_parts self other }
    {
        self.y.overlaps(other.y)
            || self.u.overlaps(other.u)
            || self.v.overlaps(other.v)
            || self.carried.overlaps(other.carried)
    }

    // Whether these parts overlap those of the frame in a slot.
    fn overlap_slot(self, slot: Slot) -> bool
        ensures { result ≡ overlaps_slot self slot }
    {
        match slot {
            Slot::Free => false,
            Slot::Idle(frame) | Slot::Waiting(frame, _) => self.overlap(frame.parts),
        }
    }

    fn overlap_any(self, places: &[Slot]) -> bool
        ensures { result ≡ list_any (overlaps_slot self) places.now }
    {
        places.iter().any(|slot| self.overlap_slot(*slot))
    }

    // Whether these parts overlap those of an open frame.
    #[tactic(auto, using(crate::proofs::Taken::overlaps_any))]
    pub fn overlap_open(self, places: [Slot; 32]) -> bool
        ensures { result ≡ overlaps_open places self 32 }
    {
        self.overlap_any(&places)
    }
}

impl Slot {
    // The frame with a band to wait, where it has none waiting.
    pub fn with_band(self, band: WaitingBand) -> Slot
        ensures { result ≡ offered self band }
    {
        match self {
            Slot::Idle(frame) => Slot::Waiting(frame, band),
            Slot::Free | Slot::Waiting(_, _) => self,
        }
    }
}

impl OpenFrame {
    // What stands at the camera's number once its frame has come to this state: nothing where the last row is done.
    pub fn after_band(self, state: FrameState) -> Slot
        ensures { result ≡ after_band self state }
    {
        if state.frame.height <= state.done {
            Slot::Free
        } else {
            Slot::Idle(OpenFrame {
                state,
                parts: self.parts,
            })
        }
    }
}

// The first camera with a band waiting, from number `from` on, going round.
pub fn next_waiting(places: [Slot; 32], from: usize) -> Option<Turn>
    ensures { result ≡ next_waiting places from }
{
    let start = from % 32;
    // a `find_map` would have the same test in a closure, and say of the other states that they give nothing
    for asked in 0..32 {
        let camera = (start + asked) % 32;
        if let Slot::Waiting(frame, band) = places[camera] {
            return Some(Turn {
                camera,
                frame,
                band,
            });
        }
    }
    None
}
