// The frame call, the opening and the band call, and the counts of colours, from numbers, for callers without enums and structs: refusal 1 for numbers
// without a meaning, then the call itself; and what is told of it. This is the interface of C: each call has the parameters that C passes, numbers beside
// kr and kb and buffers one by one.
#![tactic(auto)]

ghost use Rattle.std.specs.Prelude.{◌≡◌, []};
ghost use Rattle.frame_calls.specs.Calls.{exported_frame, FrameAnswered, FrameKept};
ghost use Rattle.frame_calls.specs.Calls.{exported_opening, OpenAnswered, OpenKept};
ghost use Rattle.frame_calls.specs.Calls.{exported_band, BandAnswered, BandKept};
ghost use Rattle.frame_calls.specs.Counts.{exported_counts, CountsAnswered, CountsKept};

use band_calls::FrameState;
use call_numbers::Told;
use yuv_error::YuvError;

// What stands before the description: the source's stride of a frame; the rows done, the rows and the source's stride of a band.
const OF_FRAME: usize = 1;

const OF_BAND: usize = 3;

// The frame call, once the numbers have a meaning.
fn frame_answer(
    numbers: &[u32],
    custom: &[f32; 2],
    source: &[u8],
    y: &mut [u8],
    u: &mut [u8],
    v: &mut [u8],
) -> Result<(), YuvError>
    ensures { FrameAnswered (exported_frame numbers.now custom.now source.now
        y.old u.old v.old 0 [] y.new u.new v.new) result }
{
    let frame = call_numbers::described(OF_FRAME, numbers, custom)?;
    sharp_rgba_to_yuv::rgbx_to_sharp_yuv(frame, source, numbers[0], y, u, v)
}

// `segvartin_call_frame` of crate `segvartin` is one call of this.
pub fn call_frame(
    numbers: &[u32],
    custom: &[f32; 2],
    source: &[u8],
    y: &mut [u8],
    u: &mut [u8],
    v: &mut [u8],
    told: &mut [usize; 2],
) -> u32
    ensures { FrameKept (exported_frame numbers.now custom.now source.now
        y.old u.old v.old result told.new y.new u.new v.new) }
{
    call_numbers::tell_answer(frame_answer(numbers, custom, source, y, u, v), told)
}

// The opening, once the numbers have a meaning. No row is done after it, refused or not.
fn opening_answer(numbers: &[u32], custom: &[f32; 2]) -> Result<(), YuvError>
    ensures { OpenAnswered (exported_opening numbers.now custom.now 0 []) result 0 }
{
    let frame = call_numbers::described(0, numbers, custom)?;
    FrameState::open(frame).answer
}

// `segvartin_call_open` of crate `segvartin` is one call of this.
pub fn call_open(numbers: &[u32], custom: &[f32; 2], told: &mut [usize; 3]) -> u32
    ensures { OpenKept (exported_opening numbers.now custom.now result told.new) }
{
    let opened = Told {
        answer: opening_answer(numbers, custom),
        done: 0,
    };
    call_numbers::tell(opened, told)
}

// The band call, once the numbers have a meaning. No `From<FrameAnswer>` for `Told`: both are of other crates, and this is the one place where a band's answer
// and rows become what is told.
fn band_told(
    numbers: &[u32],
    custom: &[f32; 2],
    source: &[u8],
    y: &mut [u8],
    u: &mut [u8],
    v: &mut [u8],
    carried: &mut [u8],
) -> Told
    ensures { BandAnswered (exported_band numbers.now custom.now source.now
        y.old u.old v.old carried.old
        0 [] y.new u.new v.new carried.new) result.answer result.done }
{
    match call_numbers::described(OF_BAND, numbers, custom) {
        Err(e) => Told {
            answer: Err(e),
            done: call_numbers::number_at(numbers, 0) as usize,
        },
        Ok(frame) => {
            let before = FrameState {
                frame,
                done: numbers[0],
            };
            let converted = before.band(numbers[1], source, numbers[2], y, u, v, carried);
            Told {
                answer: converted.answer,
                done: converted.state.done as usize,
            }
        }
    }
}

// `segvartin_call_band` of crate `segvartin` is one call of this.
pub fn call_band(
    numbers: &[u32],
    custom: &[f32; 2],
    source: &[u8],
    y: &mut [u8],
    u: &mut [u8],
    v: &mut [u8],
    carried: &mut [u8],
    told: &mut [usize; 3],
) -> u32
    ensures { BandKept (exported_band numbers.now custom.now source.now
        y.old u.old v.old carried.old
        result told.new y.new u.new v.new carried.new) }
{
    call_numbers::tell(band_told(numbers, custom, source, y, u, v, carried), told)
}

// The counts, once the numbers have a meaning.
fn counts_answer(
    numbers: &[u32],
    custom: &[f32; 2],
    counts: &mut [u32; 256],
) -> Result<(), YuvError>
    ensures { CountsAnswered (exported_counts numbers.now custom.now counts.old
        0 [] counts.new) result }
{
    let Some((range, matrix)) = call_numbers::range_and_matrix(numbers, custom) else {
        return Err(YuvError::MalformedRequest);
    };
    colour_counts::colour_counts(range, matrix, counts)
}

// `segvartin_call_luma_counts` of crate `segvartin` is one call of this.
pub fn call_luma_counts(
    numbers: &[u32],
    custom: &[f32; 2],
    counts: &mut [u32; 256],
    told: &mut [usize; 2],
) -> u32
    ensures { CountsKept (exported_counts numbers.now custom.now counts.old
        result told.new counts.new) }
{
    call_numbers::tell_answer(counts_answer(numbers, custom, counts), told)
}
