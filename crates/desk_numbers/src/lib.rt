// The front desk as numbers, for callers without enums and structs (RULES 10.10): it stands in three arrays, of which each camera has a part.
#![tactic(auto)]

ghost use Rattle.std.specs.Prelude.{◌≡◌, ◌+◌, ◌*◌, ◌≤◌, ◌<◌, length};
ghost use Rattle.desk_numbers.specs.Numbers.{desk_numbers, of_camera, with_camera, frame_of, band_of, place_of, desk_of, state_numbers};
ghost use Rattle.desk_numbers.specs.Numbers.{matrix_customs, parts_at, part_numbers, put_place, ask_first};
ghost use Rattle.desk_numbers.specs.Lent.{numbers_in, Leaves};

use band_calls::FrameState;
use buffer_parts::BufferPart;
use desk::Desk;
use desk_places::{FrameParts, OpenFrame, Slot, WaitingBand};
use yuv_support::YuvStandardMatrix;

// What stands at a camera's number; any other number is no frame.
const IDLE: u32 = 1;

const WAITING: u32 = 2;

// Where the description stands in a camera's nineteen numbers, behind what stands at its number, the rows done, and the rows and the stride of its
// band.
const OF_PLACE: usize = 4;

// Where the camera stands that is asked first.
const ASKED_FIRST: usize = 608;

// Camera k's part of an array in which each has N. `array_at` of `little_endian` is this for bytes, of which a desk has none, and its place would be N * k at
// each call.
fn of_camera<T: Copy, const N: usize>(numbers: &[T], k: usize) -> [T; N]
    requires { N * k + N ≤ length numbers.now }
    ensures { result ≡ of_camera N numbers.now k }
{
    let at = N * k;
    <[T; N]>::try_from(&numbers[at..at + N]).unwrap()
}

// Writes it anew.
fn put_camera<T: Copy, const N: usize>(numbers: &mut [T], k: usize, values: [T; N])
    requires { N * k + N ≤ length numbers.old }
    ensures { numbers.new ≡ with_camera N numbers.old k values }
{
    let at = N * k;
    numbers[at..at + N].copy_from_slice(&values);
}

// The parts of Y, U, V and the carried row, from number `at` on. No `From`: a slice with a place, and a struct of another crate.
pub fn parts_at(parts: &[u64], at: usize) -> FrameParts
    requires { at ≤ 506 }
    ensures { result ≡ parts_at parts.now at }
{
    FrameParts {
        y: convoy_calls::part_at(parts, at),
        u: convoy_calls::part_at(parts, at + 2),
        v: convoy_calls::part_at(parts, at + 4),
        carried: convoy_calls::part_at(parts, at + 6),
    }
}

// ---- a camera's place, as numbers and as a slot

// A camera's part of each of the three arrays.
#[derive(Clone, Copy, Debug, PartialEq)]
struct PlaceNumbers {
    numbers: [u32; 19],
    customs: [f32; 2],
    parts: [u64; 10],
}

impl PlaceNumbers {
    fn frame(self) -> OpenFrame
        ensures { result ≡ frame_of self.numbers self.customs self.parts }
    {
        OpenFrame {
            state: FrameState {
                frame: call_numbers::describe(&self.numbers[OF_PLACE..], &self.customs),
                done: self.numbers[1],
            },
            parts: parts_at(&self.parts, 2),
        }
    }

    fn band(self) -> WaitingBand
        ensures { result ≡ band_of self.numbers self.parts }
    {
        WaitingBand {
            rows: self.numbers[2],
            stride: self.numbers[3],
            source: convoy_calls::part_at(&self.parts, 0),
        }
    }
}

// C gives any number for a kind: the match is all that reads it, and an enum between the two would say no more.
impl From<PlaceNumbers> for Slot {
    ghost use Rattle.desk_numbers.specs.Numbers.{slot_of};

    ghost from_gives = { λ n slot. slot ≡ slot_of n.numbers n.customs n.parts };

    fn from(n: PlaceNumbers) -> Slot {
        match n.numbers[0] {
            IDLE => Slot::Idle(n.frame()),
            WAITING => Slot::Waiting(n.frame(), n.band()),
            _ => Slot::Free,
        }
    }
}

impl From<Slot> for PlaceNumbers {
    ghost use Rattle.desk_numbers.specs.Numbers.{slot_numbers, slot_customs, slot_parts};

    ghost from_gives = { λ slot n. (n.numbers ≡ slot_numbers slot) × (n.customs ≡ slot_customs slot) × (n.parts ≡ slot_parts slot) };

    fn from(slot: Slot) -> PlaceNumbers {
        let none = BufferPart {
            offset: 0,
            length: 0,
        };
        match slot {
            Slot::Free => PlaceNumbers {
                numbers: [0; 19],
                customs: [0.0, 0.0],
                parts: [0; 10],
            },
            Slot::Idle(frame) => PlaceNumbers {
                numbers: state_numbers(IDLE, 0, 0, frame.state),
                customs: matrix_customs(frame.state.frame.settings.matrix),
                parts: part_numbers(none, frame.parts),
            },
            Slot::Waiting(frame, band) => PlaceNumbers {
                numbers: state_numbers(WAITING, band.rows, band.stride, frame.state),
                customs: matrix_customs(frame.state.frame.settings.matrix),
                parts: part_numbers(band.source, frame.parts),
            },
        }
    }
}

fn state_numbers(kind: u32, rows: u32, stride: u32, state: FrameState) -> [u32; 19]
    ensures { result ≡ state_numbers kind rows stride state }
{
    let frame = state.frame;
    let settings = frame.settings;
    let window = frame.window;
    [
        kind,
        state.done,
        rows,
        stride,
        frame.width,
        frame.height,
        u32::from(settings.channels),
        u32::from(settings.sampling),
        u32::from(settings.range),
        setting_codes::matrix_code(settings.matrix),
        u32::from(settings.transfer),
        frame.y_stride,
        frame.u_stride,
        frame.v_stride,
        u32::from(settings.rounding),
        window.left,
        window.top,
        window.source_width,
        window.source_height,
    ]
}

fn matrix_customs(matrix: YuvStandardMatrix) -> [f32; 2]
    ensures { result ≡ matrix_customs matrix }
{
    match matrix {
        YuvStandardMatrix::Custom(kr, kb) => [kr, kb],
        _ => [0.0, 0.0],
    }
}

fn part_numbers(source: BufferPart, parts: FrameParts) -> [u64; 10]
    ensures { result ≡ part_numbers source parts }
{
    [
        source.offset as u64,
        source.length as u64,
        parts.y.offset as u64,
        parts.y.length as u64,
        parts.u.offset as u64,
        parts.u.length as u64,
        parts.v.offset as u64,
        parts.v.length as u64,
        parts.carried.offset as u64,
        parts.carried.length as u64,
    ]
}

// ---- the desk in the three arrays

// Here and in `desk_of` the arrays are three parameters, as C lends them: a `LentDesk` holds them to be written, and a caller of `desk_of` may have them to
// be read alone.
#[tactic(auto, unfolding(crate::specs::Numbers::place_of))]
fn place_of(numbers: &[u32; 609], customs: &[f32; 64], parts: &[u64; 320], k: usize) -> Slot
    requires { k < 32 }
    ensures { result ≡ place_of (desk_numbers numbers.now customs.now parts.now) k }
{
    let place = PlaceNumbers {
        numbers: of_camera(numbers, k),
        customs: of_camera(customs, k),
        parts: of_camera(parts, k),
    };
    place.into()
}

// The desk that the numbers are.
pub fn desk_of(numbers: &[u32; 609], customs: &[f32; 64], parts: &[u64; 320]) -> Desk
    ensures { result ≡ desk_of (desk_numbers numbers.now customs.now parts.now) }
{
    Desk {
        places: std::array::from_fn(|k| place_of(numbers, customs, parts, k)),
        from: call_numbers::number_at(numbers, ASKED_FIRST) as usize,
    }
}

// The three arrays that are a desk, as C lends them.
#[derive(Drop)]
pub struct LentDesk<'a> {
    pub numbers: &'a mut [u32; 609],
    pub customs: &'a mut [f32; 64],
    pub parts: &'a mut [u64; 320],
}

impl LentDesk<'_> {
    // The desk that the numbers are.
    pub fn desk(&self) -> Desk
        ensures { result ≡ desk_of (numbers_in self.now) }
    {
        desk_of(self.numbers, self.customs, self.parts)
    }

    // Writes the place of camera c anew.
    #[tactic(auto, unfolding(crate::specs::Numbers::put_place))]
    pub fn put_place(&mut self, c: usize, slot: Slot)
        requires { c < 32 }
        ensures { Leaves (put_place (numbers_in self.old) c slot) self.old self.new }
    {
        let place = PlaceNumbers::from(slot);
        put_camera(self.numbers, c, place.numbers);
        put_camera(self.customs, c, place.customs);
        put_camera(self.parts, c, place.parts);
    }

    // Writes who is asked first.
    pub fn put_asked_first(&mut self, from: usize)
        requires { from < 32 }
        ensures { Leaves (ask_first (numbers_in self.old) from) self.old self.new }
    {
        self.numbers[ASKED_FIRST] = from as u32;
    }
}
