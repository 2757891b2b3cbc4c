// A convoy from numbers, for callers without enums and structs: sixteen numbers a frame, its kr and kb, its parts as offsets and lengths; and what is
// told of it. `call_convoy` has C's parameters; Y, U and V come as three slices for the reason that crate `convoy` gives.
#![tactic(auto)]

ghost use Rattle.std.specs.Prelude.{◌≡◌, ◌≤◌, ◌<◌, [], ◌∷◌, get_or};
ghost use Rattle.std.specs.Float.{nan};
ghost use Rattle.yuv_error.specs.Numbers.{numbers_of};
ghost use Rattle.convoy.specs.Run.{planes_of, convoy_call, ConvoyPost};
ghost use Rattle.convoy_calls.specs.Numbers.{custom_at, part_at, described_of, frame_of, convoy_of};
ghost use Rattle.convoy_calls.specs.Calls.{exported_convoy, ConvoyKept};

use buffer_parts::BufferPart;
use call_numbers::Told;
use convoy::ConvoyAnswer;
use convoy_parts::{ConvoyFrame, MAX_FRAMES};
use definitions::FrameDescription;
use yuv_error::YuvError;

// The numbers of a frame: the source's stride, then a description with rounding and window.
const FRAME_NUMBERS: usize = 16;

// What stands before the description.
const OF_FRAME: usize = 1;

// kr and kb of a frame.
const FRAME_CUSTOMS: usize = 2;

// Offset and length in each of the four buffers.
const FRAME_PARTS: usize = 8;

// Float i, or NaN where it is not given.
fn float_at(customs: &[f32], i: usize) -> f32
    ensures { result ≡ get_or customs.now i nan }
{
    call_numbers::item_or(customs, i, f32::NAN)
}

// No conversion of a type of ours: `usize` is std's, and its `TryFrom<u64>` would answer a `Result` that never is an error where this is built.
pub fn as_place(n: u64) -> usize
    ensures { result ≡ n }
{
    n as usize
}

// Number i, or 0 where it is not given.
fn place_at(places: &[u64], i: usize) -> usize
    ensures { result ≡ get_or places.now i 0 }
{
    as_place(call_numbers::item_or(places, i, 0))
}

pub fn part_at(parts: &[u64], i: usize) -> BufferPart
    requires { i ≤ 512 }
    ensures { result ≡ part_at parts.now i }
{
    BufferPart {
        offset: place_at(parts, i),
        length: place_at(parts, i + 1),
    }
}

// The numbers of a convoy's frames, kr and kb of each, and offsets and lengths of its parts, as C lends them.
#[derive(Clone, Copy, Debug)]
pub struct ConvoyNumbers<'a> {
    pub numbers: &'a [u32],
    pub customs: &'a [f32],
    pub parts: &'a [u64],
}

impl ConvoyNumbers<'_> {
    // What frame k's sixteen numbers describe; nothing where fewer are left for it.
    fn described(&self, k: usize) -> Option<FrameDescription>
        requires { k < 64 }
        ensures { result ≡ described_of k self.now.numbers.now (custom_at self.now.customs.now k) }
    {
        let at = FRAME_NUMBERS * k;
        let end = at + FRAME_NUMBERS;
        if self.numbers.len() < end {
            return None;
        }
        let in_customs = FRAME_CUSTOMS * k;
        let custom = [
            float_at(self.customs, in_customs),
            float_at(self.customs, in_customs + 1),
        ];
        call_numbers::described(OF_FRAME, &self.numbers[at..end], &custom).ok()
    }

    #[tactic(auto, unfolding(crate::specs::Numbers::frame_of))]
    fn frame(&self, k: usize) -> ConvoyFrame
        requires { k < 64 }
        ensures { result ≡ frame_of self.now.numbers.now self.now.customs.now self.now.parts.now k }
    {
        let in_parts = FRAME_PARTS * k;
        ConvoyFrame {
            described: self.described(k),
            stride: call_numbers::number_at(self.numbers, FRAME_NUMBERS * k),
            source: part_at(self.parts, in_parts),
            y: part_at(self.parts, in_parts + 2),
            u: part_at(self.parts, in_parts + 4),
            v: part_at(self.parts, in_parts + 6),
        }
    }

    // The frames that the numbers describe, as many as a convoy has room for. A frame past the numbers is one of codes without a meaning, with parts
    // of no bytes.
    pub fn frames(&self) -> [ConvoyFrame; 64]
        ensures { result ≡ convoy_of 64 self.now.numbers.now self.now.customs.now self.now.parts.now }
    {
        std::array::from_fn(|k| self.frame(k))
    }
}

// Converts the first `count` of those frames; refusal 18 where a convoy has no room for so many.
fn convert_numbered(
    count: usize,
    given: &ConvoyNumbers,
    source: &[u8],
    y: &mut [u8],
    u: &mut [u8],
    v: &mut [u8],
) -> ConvoyAnswer
    ensures { ConvoyPost (convoy_call (convoy_of count given.now.numbers.now given.now.customs.now given.now.parts.now) source.now
        (planes_of y.old u.old v.old) result
        (planes_of y.new u.new v.new)) }
{
    if count > MAX_FRAMES {
        return ConvoyAnswer {
            answer: Err(YuvError::PartsMismatch),
            done: 0,
        };
    }
    let frames = given.frames();
    convoy::convert_convoy(&frames[..count], source, y, u, v)
}

// Tells the answer of a convoy, and then how many frames are finished.
fn tell_convoy(answered: ConvoyAnswer, told: &mut [usize; 3]) -> u32
    ensures number { result ≡ (numbers_of answered.answer).number }
    ensures told { told.new ≡ (numbers_of answered.answer).expected ∷ (numbers_of answered.answer).received ∷ answered.done ∷ [] }
{
    let of_convoy = Told {
        answer: answered.answer,
        done: answered.done,
    };
    call_numbers::tell(of_convoy, told)
}

// Converts a convoy of frames (0), or answers the number of one refusal: 18 before any frame is begun, else that of the first frame that is refused,
// 1 for numbers without a meaning among them. told: expected, received, and how many frames are finished, the place of the refused one.
pub fn call_convoy(
    count: usize,
    numbers: &[u32],
    customs: &[f32],
    parts: &[u64],
    source: &[u8],
    y: &mut [u8],
    u: &mut [u8],
    v: &mut [u8],
    told: &mut [usize; 3],
) -> u32
    ensures { ConvoyKept (exported_convoy count numbers.now customs.now parts.now source.now
        (planes_of y.old u.old v.old) result told.new
        (planes_of y.new u.new v.new)) }
{
    let given = ConvoyNumbers {
        numbers,
        customs,
        parts,
    };
    let answered = convert_numbered(count, &given, source, y, u, v);
    tell_convoy(answered, told)
}
