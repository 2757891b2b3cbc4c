// What is worked out once a call beside the gamma table: the weights of chroma, and the tables of sums.
//
// Weights and tables go by the place of a byte in its pixel, so that the loops need not know the order of the channels.
ghost use Rattle.std.specs.Prelude.{◌≡◌, ◌+◌, ◌*◌, ◌≤◌, ◌<◌, nat_abs, get_or, length};
ghost use Rattle.sharp_gamma.specs.Entry.{TableOf};
ghost use Rattle.definitions.specs.Row.{linear as linear_of};
ghost use Rattle.pixel_pairs.specs.Weights.{Weighed, by_place, conversion_of};
ghost use Rattle.pixel_pairs.specs.Tables.{left_entry, right_entry, SumTables};
ghost use Rattle.pixel_pairs.specs.Rows.{TwoPainted};

use definitions::FrameDescription;
use forward_transform::CbCrForwardTransformI32;
use yuv_support::{YuvSourceChannels, get_yuv_range};

// Weights are in units of 1 / 8,192.
const ONE: u64 = 8192;

// Half of 8,192, less 1: an exact half is rounded down.
const ROUNDING: u64 = 4095;

// Where linear values start in an entry, 2^44, and the luma of a right pixel, 2^21.
const LINEAR: u64 = 17592186044416;

const RIGHT: u64 = 2097152;

// A weight for each of the first three bytes of a pixel.
#[derive(Clone, Copy, Debug, PartialEq, Eq)]
pub struct Weights {
    pub first: i32,
    pub second: i32,
    pub third: i32,
}

// A frame's description, and the weights of chroma that its settings give.
#[derive(Clone, Copy, Debug, PartialEq)]
pub struct Conversion {
    pub frame: FrameDescription,
    pub cb: Weights,
    pub cr: Weights,
}

// The weights of red, green and blue, in the order of a pixel's bytes.
fn by_place(channels: YuvSourceChannels, r: i32, g: i32, b: i32) -> Weights
    ensures { result ≡ by_place channels r g b }
{
    match channels {
        YuvSourceChannels::Rgb | YuvSourceChannels::Rgba => Weights {
            first: r,
            second: g,
            third: b,
        },
        YuvSourceChannels::Bgra | YuvSourceChannels::Bgr => Weights {
            first: b,
            second: g,
            third: r,
        },
    }
}

pub fn conversion_of(frame: FrameDescription, t: CbCrForwardTransformI32) -> Conversion
    requires { Weighed frame.settings t }
    ensures { result ≡ conversion_of frame }
{
    let channels = frame.settings.channels;
    let cb = by_place(channels, t.cb_r, t.cb_g, t.cb_b);
    let cr = by_place(channels, t.cr_r, t.cr_g, t.cr_b);
    Conversion { frame, cb, cr }
}

// What byte x adds to luma, in 8,192nds.
fn weighed(x: usize, weight: u64, start: u64) -> u64
    requires { (x < 256) × (weight ≤ 8193) × (start < 2097152) }
    ensures { (result ≡ x * weight + start) × (result < 8388608) }
{
    x as u64 * weight + start
}

// The entries of one place of a pixel, in both tables: `start` is what luma starts from there.
fn fill(linear: &[u16; 256], at: usize, weight: u64, start: u64, sums: &mut [u64; 1536])
    requires { (at ≤ 512) × (weight ≤ 8193) × (start < 2097152) }
    ensures { TwoPainted at (768 + at) 256 (λ x. left_entry (x * weight + start) (get_or linear.now x 0))
        (λ x. right_entry (x * weight + start) (get_or linear.now x 0)) sums.old sums.new }
{
    let right = 768 + at;
    for (x, &value) in linear.iter().enumerate() {
        let value = u64::from(value);
        let luma = weighed(x, weight, start);
        sums[at + x] = LINEAR * (3 * value + 2) + luma;
        sums[right + x] = LINEAR * value + RIGHT * luma;
    }
}

// Both tables of sums, the left one first.
pub fn sum_tables(
    frame: FrameDescription,
    t: CbCrForwardTransformI32,
    linear: &[u16; 256],
    sums: &mut [u64; 1536],
)
    requires weighed { Weighed frame.settings t }
    requires table_of { TableOf 256 (linear_of frame.settings) linear.now }
    ensures { SumTables frame.settings sums.new }
{
    let weights = by_place(frame.settings.channels, t.yr, t.yg, t.yb);
    let bias = get_yuv_range(frame.settings.range).bias_y as u64 * ONE + ROUNDING;
    fill(linear, 0, weights.first.unsigned_abs() as u64, bias, sums);
    fill(linear, 256, weights.second.unsigned_abs() as u64, 0, sums);
    fill(linear, 512, weights.third.unsigned_abs() as u64, 0, sums);
}
