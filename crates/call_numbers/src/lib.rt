// The numbers that a caller without enums and structs passes and is told: a description in a slice, so that a later setting is one number more; an
// answer as its number, expected and received. Numbers and kr and kb come as two parameters, since C lends two arrays, the contracts speak of each,
// and a caller here makes one call: a struct of both would be made for that call alone.
#![tactic(auto)]

ghost use Rattle.std.specs.Prelude.{◌≡◌, false, cond, ltb, ◌+◌, ◌≤◌, length, get_or, drop, set, OnOk, Some, None};
ghost use Rattle.yuv_error.specs.Numbers.{numbers_of};
ghost use Rattle.setting_codes.specs.Codes.{custom_code};
ghost use Rattle.call_numbers.specs.Codes.{matrix_of, settings_of, window_of, description_of, is_unknown, is_malformed, described, range_and_matrix};

use definitions::{FrameDescription, Window, YuvSettings};
use sharp_gamma::{SharpYuvGammaTransfer, TableRounding};
use yuv_error::YuvError;
use yuv_support::{YuvChromaSubsampling, YuvRange, YuvSourceChannels, YuvStandardMatrix};

// The numbers of a description: width, height, channels, sampling, range, matrix, transfer, y_stride, u_stride, v_stride.
const DESCRIPTION: usize = 10;

// The same with the rounding behind them, and with left, top, source_width and source_height behind that.
const WITH_ROUNDING: usize = 11;

const WITH_WINDOW: usize = 15;

// The code of a matrix of the caller's own kr and kb; those below it are the named ones, and those past it have no meaning.
const CUSTOM: u32 = 6;

// Item i, or another where it is not given.
pub fn item_or<T: Copy>(items: &[T], i: usize, other: T) -> T
    ensures { result ≡ get_or items.now i other }
{
    items.get(i).copied().unwrap_or(other)
}

// Number i, or 0 where it is not given.
pub fn number_at(numbers: &[u32], i: usize) -> u32
    ensures { result ≡ get_or numbers.now i 0 }
{
    item_or(numbers, i, 0)
}

// Whether one of a description's codes has no meaning. It asks and reads nothing: `settings_of` reads the same codes, also for a desk, whose numbers come to
// it untested and have the first meaning for such a code.
fn has_unknown(numbers: &[u32]) -> bool
    ensures { result ≡ is_unknown numbers.now }
{
    YuvSourceChannels::try_from(number_at(numbers, 2)).is_err()
        || YuvChromaSubsampling::try_from(number_at(numbers, 3)).is_err()
        || YuvRange::try_from(number_at(numbers, 4)).is_err()
        || number_at(numbers, 5) > CUSTOM // a number: no `TryFrom` reads 6, which is a matrix by kr and kb
        || SharpYuvGammaTransfer::try_from(number_at(numbers, 6)).is_err()
        || TableRounding::try_from(number_at(numbers, DESCRIPTION)).is_err()
}

// Whether there are not so many numbers and a description, or one of its codes has no meaning.
#[tactic(auto, unfolding(crate::specs::Codes::is_malformed))]
pub fn is_malformed(before: usize, numbers: &[u32]) -> bool
    ensures { result ≡ is_malformed before numbers.now }
{
    match numbers.len().checked_sub(before) {
        Some(DESCRIPTION | WITH_ROUNDING | WITH_WINDOW) => has_unknown(&numbers[before..]),
        _ => true,
    }
}

// The matrix that a code means; none past Custom's.
fn matrix_given(code: u32, custom: &[f32; 2]) -> Option<YuvStandardMatrix>
    ensures { result ≡ cond (ltb custom_code code) None (Some (matrix_of code custom.now)) }
{
    if code == CUSTOM {
        return Some(YuvStandardMatrix::Custom(custom[0], custom[1]));
    }
    YuvStandardMatrix::try_from(code).ok()
}

// The range and the matrix of a count of colours; none where there are not two numbers, or one has no meaning.
#[tactic(auto, unfolding(crate::specs::Codes::is_malformed_range_and_matrix))]
pub fn range_and_matrix(numbers: &[u32], custom: &[f32; 2]) -> Option<(YuvRange, YuvStandardMatrix)>
    ensures { result ≡ range_and_matrix numbers.now custom.now }
{
    let &[range, matrix] = numbers else {
        return None;
    };
    let range = YuvRange::try_from(range).ok()?;
    let matrix = matrix_given(matrix, custom)?;
    Some((range, matrix))
}

// The matrix that a code means, and the first one past Custom's.
pub fn matrix_of(code: u32, custom: &[f32; 2]) -> YuvStandardMatrix
    ensures { result ≡ matrix_of code custom.now }
{
    matrix_given(code, custom).unwrap_or(YuvStandardMatrix::Bt601)
}

#[tactic(auto, unfolding(crate::specs::Codes::settings_of))]
fn settings_of(numbers: &[u32], custom: &[f32; 2]) -> YuvSettings
    ensures { result ≡ settings_of numbers.now custom.now }
{
    YuvSettings {
        channels: setting_codes::channels_of(number_at(numbers, 2)),
        sampling: setting_codes::sampling_of(number_at(numbers, 3)),
        range: setting_codes::range_of(number_at(numbers, 4)),
        matrix: matrix_of(number_at(numbers, 5), custom),
        transfer: setting_codes::transfer_of(number_at(numbers, 6)),
        rounding: setting_codes::rounding_of(number_at(numbers, DESCRIPTION)),
    }
}

#[tactic(auto, unfolding(crate::specs::Codes::window_of))]
fn window_of(numbers: &[u32]) -> Window
    ensures { result ≡ window_of numbers.now }
{
    if numbers.len() < WITH_WINDOW {
        return Window {
            left: 0,
            top: 0,
            source_width: number_at(numbers, 0),
            source_height: number_at(numbers, 1),
        };
    }
    Window {
        left: number_at(numbers, 11),
        top: number_at(numbers, 12),
        source_width: number_at(numbers, 13),
        source_height: number_at(numbers, 14),
    }
}

// The frame that a description's numbers describe; a number that is not given counts as 0, a code without a meaning as the first.
pub fn describe(numbers: &[u32], custom: &[f32; 2]) -> FrameDescription
    ensures { result ≡ description_of numbers.now custom.now }
{
    FrameDescription {
        width: number_at(numbers, 0),
        height: number_at(numbers, 1),
        window: window_of(numbers),
        settings: settings_of(numbers, custom),
        y_stride: number_at(numbers, 7),
        u_stride: number_at(numbers, 8),
        v_stride: number_at(numbers, 9),
    }
}

// The same where other numbers stand before them.
#[tactic(auto, using(crate::proofs::Numbers::counted))]
pub fn describe_after(before: usize, numbers: &[u32], custom: &[f32; 2]) -> FrameDescription
    requires { is_malformed before numbers.now ≡ false }
    ensures { result ≡ description_of (drop before numbers.now) custom.now }
{
    describe(&numbers[before..], custom)
}

// The frame that a call's numbers describe, or refusal 1 where they are malformed.
#[tactic(auto, using(crate::proofs::Numbers::counted))]
pub fn described(
    before: usize,
    numbers: &[u32],
    custom: &[f32; 2],
) -> Result<FrameDescription, YuvError>
    ensures value { result ≡ described before numbers.now custom.now }
    ensures long { OnOk result (before + 10 ≤ length numbers.now) }
{
    if is_malformed(before, numbers) {
        return Err(YuvError::MalformedRequest);
    }
    Ok(describe_after(before, numbers, custom))
}

// Tells an answer: its number, and its expected and received. `told` is a slice here and in `tell`, as the arrays that C lends have 2, 3 or 4 places.
pub fn tell_answer(answer: Result<(), YuvError>, told: &mut [usize]) -> u32
    requires { 2 ≤ length told.old }
    ensures { (result ≡ (numbers_of answer).number)
        × (told.new ≡ set (set told.old 0 (numbers_of answer).expected) 1 (numbers_of answer).received) }
{
    let numbered = error_numbers::answer_numbers(answer);
    told[0] = numbered.size.expected;
    told[1] = numbered.size.received;
    numbered.number
}

// What an opening, a band call or a convoy has to tell: its answer, and the rows or frames done. By RULES 10.3 and 10.9 C is told these beside a refusal too,
// so this is no `Result`.
#[derive(Clone, Copy, Debug, PartialEq, Eq)]
pub struct Told {
    pub answer: Result<(), YuvError>,
    pub done: usize,
}

// Tells it: the answer, and then what is done.
pub fn tell(t: Told, told: &mut [usize]) -> u32
    requires { 3 ≤ length told.old }
    ensures { (result ≡ (numbers_of t.answer).number)
        × (told.new ≡ set (set (set told.old 0 (numbers_of t.answer).expected) 1 (numbers_of t.answer).received) 2 t.done) }
{
    let number = tell_answer(t.answer, told);
    told[2] = t.done;
    number
}
