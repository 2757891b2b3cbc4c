// The front desk (RULES 16): 32 cameras share one converter and five buffers. A camera opens a frame and offers its bands; a step serves one.
// A call changes the desk in place. It is taken as it comes, also one that no call left.
// The buffers of a step come as slices of their own, as C lends them: each contract speaks of y, u and v one by one, so a struct of
// them would be made for a call and taken apart in it.
#![tactic(auto)]

ghost use Rattle.std.specs.Prelude.{◌≡◌, ◌<◌, OnOk};
ghost use Rattle.yuv_error.specs.Numbers.{numbers_of};
ghost use Rattle.yuv_error.specs.Rules.{first_numbers};
ghost use Rattle.desk_bands.specs.Buffers.{buffers_of};
ghost use Rattle.desk.specs.DeskCall.{fresh, number_rules, part_rules, open_call, OpenPost, waiting_rules, source_rules, offer_call, OfferPost};
ghost use Rattle.desk.specs.DeskCall.{desk_answer, step_call, step_result, StepPost};

use band_calls::FrameState;
use definitions::FrameDescription;
use desk_places::{BufferLengths, FrameParts, OpenFrame, Slot, WaitingBand};
use yuv_error::YuvError;

// What stands at each camera's number, and which camera is asked first at the next step.
#[derive(Clone, Copy, Debug, PartialEq)]
pub struct Desk {
    pub places: [Slot; 32],
    pub from: usize,
}

// Whose band a step served, and what became of it: both are told whenever a band was served. That none was is the `Option` round it.
#[derive(Clone, Copy, Debug, PartialEq, Eq)]
pub struct Served {
    pub camera: usize,
    pub answer: Result<(), YuvError>,
}

// That a camera is below 32 stands in seven contracts, here and in crates `desk_numbers`, `desk_calls` and `desk_steps`, and on no type: C gives any number for
// one, refusal 21 is an answer of its calls, and a desk that C kept has any number for who is asked first. So each says it of a number that its caller keeps.

// Refusals 21 and 23 of an opening. This and the next are public for callers that have a refusal of their own before 2. A check and no conversion:
// the match asks what stands at a number.
pub fn check_number(places: [Slot; 32], camera: u32) -> Result<(), YuvError>
    ensures numbers { numbers_of result ≡ first_numbers (number_rules places camera) }
    ensures below { OnOk result (camera < 32) }
{
    if 31 < camera {
        return Err(YuvError::CameraMismatch);
    }
    match places[camera as usize] {
        Slot::Free => Ok(()),
        Slot::Idle(_) | Slot::Waiting(_, _) => Err(YuvError::CameraInUse),
    }
}

// Refusal 18 of an opening.
pub fn check_parts(
    places: [Slot; 32],
    parts: FrameParts,
    lens: BufferLengths,
) -> Result<(), YuvError>
    ensures { numbers_of result ≡ first_numbers (part_rules places parts lens) }
{
    if !parts.are_inside(lens) || parts.overlap_open(places) {
        return Err(YuvError::PartsMismatch);
    }
    Ok(())
}

// Refusals 21 and 22 of an offer.
fn check_waiting(places: [Slot; 32], camera: u32) -> Result<(), YuvError>
    ensures numbers { numbers_of result ≡ first_numbers (waiting_rules places camera) }
    ensures below { OnOk result (camera < 32) }
{
    if 31 < camera {
        return Err(YuvError::CameraMismatch);
    }
    match places[camera as usize] {
        Slot::Free => Err(YuvError::CameraMismatch),
        Slot::Idle(_) => Ok(()),
        Slot::Waiting(_, _) => Err(YuvError::BandStillWaiting),
    }
}

// Refusal 18 of an offer.
fn check_source(band: WaitingBand, source_len: usize) -> Result<(), YuvError>
    ensures { numbers_of result ≡ first_numbers (source_rules band source_len) }
{
    if !band.source.is_inside(source_len) {
        return Err(YuvError::PartsMismatch);
    }
    Ok(())
}

impl Desk {
    // A desk with no frame open.
    pub fn new() -> Desk
        ensures { result ≡ fresh }
    {
        Desk {
            places: [Slot::Free; 32],
            from: 0,
        }
    }

    // Opens a frame for a camera, with its parts of buffers that are so long. Refuses 21, 23, 18, then as FrameState::open (2, 3, 4, 14),
    // and leaves the desk as it is.
    pub fn open(
        &mut self,
        camera: u32,
        frame: FrameDescription,
        parts: FrameParts,
        lens: BufferLengths,
    ) -> Result<(), YuvError>
        ensures { OpenPost (open_call self.old camera frame parts lens (desk_answer self.new result)) }
    {
        check_number(self.places, camera)?;
        check_parts(self.places, parts, lens)?;
        let opened = FrameState::open(frame);
        opened.answer?;
        self.places[camera as usize] = Slot::Idle(OpenFrame {
            state: opened.state,
            parts,
        });
        Ok(())
    }

    // Takes a camera's next band to wait, in a source buffer of `source_len` bytes. Refuses 21, 22, 18, and leaves the desk as it is.
    pub fn offer(
        &mut self,
        camera: u32,
        band: WaitingBand,
        source_len: usize,
    ) -> Result<(), YuvError>
        ensures { OfferPost (offer_call self.old camera band source_len (desk_answer self.new result)) }
    {
        check_waiting(self.places, camera)?;
        check_source(band, source_len)?;
        let slot = self.places[camera as usize];
        self.places[camera as usize] = slot.with_band(band);
        Ok(())
    }

    // Serves the next camera with a band waiting: 18 where a part of its frame or band reaches outside the buffers, else as FrameState::band.
    // The band is used up, refused or not. Bytes in no part of that frame are not written, and none where it is refused or nobody waits.
    pub fn step(
        &mut self,
        source: &[u8],
        y: &mut [u8],
        u: &mut [u8],
        v: &mut [u8],
        carried: &mut [u8],
    ) -> Option<Served>
        ensures { StepPost (step_call self.old
            (buffers_of source.now y.old u.old v.old carried.old) (step_result self.new result)
            (buffers_of source.now y.new u.new v.new carried.new)) }
    {
        let turn = desk_places::next_waiting(self.places, self.from)?;
        let served = desk_bands::serve_band(turn.frame, turn.band, source, y, u, v, carried);
        self.places[turn.camera] = turn.frame.after_band(served.state);
        self.from = (turn.camera + 1) % 32;
        Some(Served {
            camera: turn.camera,
            answer: served.answer,
        })
    }
}
