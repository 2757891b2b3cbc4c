// A step at the front desk from numbers, for callers without enums and structs (RULES 10.10): it writes the place of the camera that it served anew in the
// three arrays that are the desk, and who is asked first. The call has C's parameters.
#![tactic(auto)]

ghost use Rattle.std.specs.Prelude.{◌≡◌, ◌∷◌};
ghost use Rattle.desk_bands.specs.Buffers.{buffers_of};
ghost use Rattle.desk_numbers.specs.Numbers.{desk_numbers};
ghost use Rattle.desk_numbers.specs.Lent.{numbers_in, Leaves};
ghost use Rattle.desk_calls.specs.Calls.{served_numbers, served_told, ServedBelow, step_left, exported_desk_step, DeskStepKept};

use desk::{Desk, Served};
use desk_numbers::LentDesk;

// Writes what a step made of the place of the camera that it served, and who is asked first.
fn put_served(desk: Desk, served: Option<Served>, lent: &mut LentDesk)
    requires { ServedBelow served desk }
    ensures { Leaves (step_left (numbers_in lent.old) served desk) lent.old lent.new }
{
    if let Some(turn) = served {
        lent.put_place(turn.camera, desk.places[turn.camera]);
        lent.put_asked_first(desk.from);
    }
}

// Tells the answer of the camera that a step served, then whether there was one, and its number.
fn tell_served(served: Option<Served>, told: &mut [usize; 4]) -> u32
    ensures number { result ≡ (served_numbers served).number }
    ensures told { told.new ≡ (served_numbers served).expected ∷ (served_numbers served).received ∷ served_told served }
{
    let answer = served.map_or(Ok(()), |turn| turn.answer);
    told[2] = usize::from(served.is_some());
    told[3] = served.map_or(0, |turn| turn.camera);
    call_numbers::tell_answer(answer, told)
}

// Serves the next camera with a band waiting, and answers 0 where its band was converted or none waited, else the number of one refusal: 18, else the
// band call's. told: expected, received, 1 where a camera was served or refused and 0 where none waited, and its number.
pub fn call_desk_step(
    source: &[u8],
    y: &mut [u8],
    u: &mut [u8],
    v: &mut [u8],
    carried: &mut [u8],
    numbers: &mut [u32; 609],
    customs: &mut [f32; 64],
    parts: &mut [u64; 320],
    told: &mut [usize; 4],
) -> u32
    ensures { DeskStepKept (exported_desk_step (desk_numbers numbers.old customs.old parts.old)
        (buffers_of source.now y.old u.old v.old carried.old) result told.new
        (desk_numbers numbers.new customs.new parts.new)
        (buffers_of source.now y.new u.new v.new carried.new)) }
{
    let mut lent = LentDesk {
        numbers,
        customs,
        parts,
    };
    let mut desk = lent.desk();
    let served = desk.step(source, y, u, v, carried);
    put_served(desk, served, &mut lent);
    tell_served(served, told)
}
