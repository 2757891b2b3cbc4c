// An opening and an offer at the front desk from numbers, for callers without enums and structs (RULES 10.10): the desk stands in three lent arrays, in
// which a call writes the place of one camera anew. `desk_steps` has the step. The calls have C's parameters.
#![tactic(auto)]

ghost use Rattle.std.specs.Prelude.{◌≡◌, ◌<◌, OnOk};
ghost use Rattle.desk.specs.DeskCall.{desk_answer};
ghost use Rattle.desk_numbers.specs.Numbers.{desk_numbers};
ghost use Rattle.desk_numbers.specs.Lent.{numbers_in, Leaves};
ghost use Rattle.desk_calls.specs.Calls.{place_left, lengths_of, DescribedOpen, exported_desk_open, DeskOpenKept};
ghost use Rattle.desk_calls.specs.Calls.{exported_desk_offer, DeskOfferKept};

use desk::Desk;
use desk_numbers::LentDesk;
use desk_places::{BufferLengths, FrameParts, WaitingBand};
use yuv_error::YuvError;

// Writes what an opening or an offer made of the camera's place; a refused one made nothing of it.
fn put_answer(camera: u32, desk: Desk, answer: Result<(), YuvError>, lent: &mut LentDesk)
    requires { OnOk answer (camera < 32) }
    ensures { Leaves (place_left (numbers_in lent.old) camera (desk_answer desk answer)) lent.old lent.new }
{
    if answer.is_ok() {
        let c = camera as usize;
        lent.put_place(c, desk.places[c]);
    }
}

// ---- the calls

// No `From`: an array and the struct are of other crates.
fn lengths_of(lengths: &[u64; 4]) -> BufferLengths
    ensures { result ≡ lengths_of lengths.now }
{
    BufferLengths {
        y: convoy_calls::as_place(lengths[0]),
        u: convoy_calls::as_place(lengths[1]),
        v: convoy_calls::as_place(lengths[2]),
        carried: convoy_calls::as_place(lengths[3]),
    }
}

// Opens the frame that the numbers describe; 1, where they have no meaning, stands before 2. The parameters are those of `Desk::open`, with a description's
// numbers and kr and kb for its frame: a struct of them would be made for this call alone.
fn open_described(
    desk: &mut Desk,
    camera: u32,
    described: &[u32],
    custom: &[f32; 2],
    parts: FrameParts,
    lens: BufferLengths,
) -> Result<(), YuvError>
    ensures { DescribedOpen desk.old camera described.now custom.now parts lens (desk_answer desk.new result) }
{
    match call_numbers::described(0, described, custom) {
        Ok(frame) => desk.open(camera, frame, parts, lens),
        Err(refusal) => {
            desk::check_number(desk.places, camera)?;
            desk::check_parts(desk.places, parts, lens)?;
            Err(refusal)
        }
    }
}

// Opens a frame for a camera (0), or answers the number of one refusal and leaves the desk's numbers as they are: 21, 23, 18, 1 for numbers without a
// meaning, else 2, 3, 4 or 14. told: expected and received.
pub fn call_desk_open(
    camera: u32,
    described: &[u32],
    custom: &[f32; 2],
    frame_parts: &[u64; 8],
    lengths: &[u64; 4],
    numbers: &mut [u32; 609],
    customs: &mut [f32; 64],
    parts: &mut [u64; 320],
    told: &mut [usize; 2],
) -> u32
    ensures { DeskOpenKept (exported_desk_open camera described.now custom.now frame_parts.now lengths.now
        (desk_numbers numbers.old customs.old parts.old) result told.new
        (desk_numbers numbers.new customs.new parts.new)) }
{
    let mut lent = LentDesk {
        numbers,
        customs,
        parts,
    };
    let mut desk = lent.desk();
    let answer = open_described(
        &mut desk,
        camera,
        described,
        custom,
        desk_numbers::parts_at(frame_parts, 0),
        lengths_of(lengths),
    );
    put_answer(camera, desk, answer, &mut lent);
    call_numbers::tell_answer(answer, told)
}

// Takes a camera's next band to wait (0), or answers the number of one refusal and leaves the desk's numbers as they are: 21, 22 or 18. band: its rows
// and stride. place: its offset and length in the source, and how long the source is.
pub fn call_desk_offer(
    camera: u32,
    band: &[u32; 2],
    place: &[u64; 3],
    numbers: &mut [u32; 609],
    customs: &mut [f32; 64],
    parts: &mut [u64; 320],
) -> u32
    ensures { DeskOfferKept (exported_desk_offer camera band.now place.now
        (desk_numbers numbers.old customs.old parts.old) result
        (desk_numbers numbers.new customs.new parts.new)) }
{
    let mut lent = LentDesk {
        numbers,
        customs,
        parts,
    };
    let mut desk = lent.desk();
    let waiting = WaitingBand {
        rows: band[0],
        stride: band[1],
        source: convoy_calls::part_at(place, 0),
    };
    let answer = desk.offer(camera, waiting, convoy_calls::as_place(place[2]));
    put_answer(camera, desk, answer, &mut lent);
    error_numbers::answer_numbers(answer).number
}
