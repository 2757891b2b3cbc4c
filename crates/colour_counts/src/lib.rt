// How many of the 16,777,216 colours have each luma, in a matrix and range.
#![tactic(auto)]

mod luma;

ghost use Rattle.std.specs.Prelude.{◌≡◌, ◌+◌, ◌*◌, ◌/◌, ◌%◌, ◌≤◌, ◌<◌, T};
ghost use Rattle.yuv_support.specs.Matrix.{accepted};
ghost use Rattle.definitions.specs.Painted.{Painted};
ghost use Rattle.colour_counts.specs.Counts.{colours, count_below, CountsPost};
ghost use Rattle.colour_counts.specs.Known.{luma_by, Weighs};

use luma::LumaWeights;
use yuv_error::YuvError;
use yuv_support::{YuvRange, YuvStandardMatrix, get_yuv_range};

// Pairs of a red and a green.
const PAIRS: u32 = 65536;

// Weights are in units of 1 / 8,192.
const ONE: u64 = 8192;

// Half of 8,192, less 1: an exact half is rounded down.
const ROUNDING: u64 = 4095;

// A carried sum stands in the high half of its word: the compiler then finds the place of a count by one shift, with no mask.
const HIGH: u64 = 4294967296;

fn luma_weights(range: YuvRange, matrix: YuvStandardMatrix) -> LumaWeights
    requires { T (accepted matrix) }
    ensures { Weighs range matrix result }
{
    let t = built_coefficients::search_forward_transform(range, matrix);
    let levels = get_yuv_range(range);
    LumaWeights {
        r: t.yr.unsigned_abs() as u64,
        g: t.yg.unsigned_abs() as u64,
        b: t.yb.unsigned_abs() as u64,
        start: levels.bias_y as u64 * ONE + ROUNDING,
    }
}

// What the red and the green of a pair add to luma, and what it starts from. A pair's number has the bytes R and G, the higher first.
#[tactic(auto, using(forward_transform::proofs::Sums::byte_times))]
fn sum_of(w: LumaWeights, pair: u32) -> u64
    requires { pair < 65536 }
    ensures { (result ≡ pair / 256 * w.r + pair % 256 * w.g + w.start) × (result + 255 * w.b < 256 * 8192) }
{
    (pair / 256) as u64 * w.r + (pair % 256) as u64 * w.g + w.start
}

// Counts the 256 colours of a pair, after those of the pairs before it. The sum is carried, so a colour takes one addition and no product. No accepted
// matrix takes a luma out of the range that the definition holds it in.
fn count_blues(w: LumaWeights, pair: u32, counts: &mut [u32; 256])
    requires pair_bound { pair < 65536 }
    requires painted { Painted 256 (count_below (luma_by w) (pair * 256)) counts.old counts.old }
    ensures { Painted 256 (count_below (luma_by w) (pair * 256 + 256)) counts.old counts.new }
{
    let mut sum = sum_of(w, pair) * HIGH;
    for _blue in 0..256u32 {
        let y = (sum / HIGH / ONE) as usize;
        counts[y] += 1;
        sum += w.b * HIGH;
    }
}

// All colours, in the order of their numbers.
fn count_all(w: LumaWeights, counts: &mut [u32; 256])
    ensures { Painted 256 (count_below (luma_by w) colours) counts.old counts.new }
{
    counts.fill(0);
    for pair in 0..PAIRS {
        count_blues(w, pair, counts);
    }
}

// Puts how many colours have each luma into `counts`, or refuses a matrix that is not accepted (4) and writes nothing.
pub fn colour_counts(
    range: YuvRange,
    matrix: YuvStandardMatrix,
    counts: &mut [u32; 256],
) -> Result<(), YuvError>
    ensures { CountsPost range matrix counts.old result counts.new }
{
    yuv_error::check_matrix(matrix)?;
    count_all(luma_weights(range, matrix), counts);
    Ok(())
}
