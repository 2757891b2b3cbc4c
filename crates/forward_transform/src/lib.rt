// The forward transform: nine f32 coefficients, and the nine whole weights they are rounded to (the Rust's yuv_support.rs).
#![tactic(auto)]

ghost use Rattle.std.specs.Prelude.{◌≡◌, not, T, pos};
ghost use Rattle.std.specs.Float.Ieee.{lt};
ghost use Rattle.yuv_support.specs.Matrix.{in_half};
ghost use Rattle.forward_transform.specs.Rounding.{round_half_away};
ghost use Rattle.forward_transform.specs.Transform.{coefficients, weight, to_integers, computed_weights};
ghost use Rattle.forward_transform.specs.Small.{zero, small, small_weight, SmallWeights};

use yuv_support::{YuvBias, YuvRange};

// Nine numbers: of red, green and blue, for luma, Cb and Cr. They are f32 coefficients until rounded, and then i32 weights in units of 1 / 8,192.
#[derive(Clone, Copy, Debug, PartialEq, Eq, Hash)]
pub struct CbCrForwardTransform<T> {
    pub yr: T,
    pub yg: T,
    pub yb: T,
    pub cb_r: T,
    pub cb_g: T,
    pub cb_b: T,
    pub cr_r: T,
    pub cr_g: T,
    pub cr_b: T,
}

// The weights, by the name that callers use.
pub type CbCrForwardTransformI32 = CbCrForwardTransform<i32>;

pub fn get_forward_transform(
    range_rgba: u8,
    range_y: u8,
    range_uv: u8,
    kr: f32,
    kb: f32,
) -> CbCrForwardTransform<f32>
    ensures { result ≡ coefficients range_rgba range_y range_uv kr kb }
{
    let kg = 1.0f32 - kr - kb;

    let yr = kr * range_y as f32 / range_rgba as f32;
    let yg = kg * range_y as f32 / range_rgba as f32;
    let yb = kb * range_y as f32 / range_rgba as f32;

    let cb_r = -0.5f32 * kr / (1f32 - kb) * range_uv as f32 / range_rgba as f32;
    let cb_g = -0.5f32 * kg / (1f32 - kb) * range_uv as f32 / range_rgba as f32;
    let cb_b = 0.5f32 * range_uv as f32 / range_rgba as f32;

    let cr_r = 0.5f32 * range_uv as f32 / range_rgba as f32;
    let cr_g = -0.5f32 * kg / (1f32 - kr) * range_uv as f32 / range_rgba as f32;
    let cr_b = -0.5f32 * kb / (1f32 - kr) * range_uv as f32 / range_rgba as f32;
    CbCrForwardTransform {
        yr,
        yg,
        yb,
        cb_r,
        cb_g,
        cb_b,
        cr_r,
        cr_g,
        cr_b,
    }
}

// A number that is not below 0, to the nearest whole number, a half upward.
fn nearest_whole(x: f32) -> u16
    requires small { T (small x) }
    requires not_negative { T (not (lt x zero)) }
    ensures { pos result ≡ round_half_away x }
{
    let whole = std::num::truncating_f32_to_u64(x) as u16;
    if x < whole as f32 + 0.5 {
        whole
    } else {
        whole + 1
    }
}

// To the nearest whole number, halves away from zero: the Rust's `round` and `as i32`, worked out.
fn round_half_away(x: f32) -> i32
    requires { T (small x) }
    ensures { result ≡ round_half_away x }
{
    if x < 0.0 {
        -(nearest_whole(-x) as i32)
    } else {
        nearest_whole(x) as i32
    }
}

// A coefficient at 13 bits of precision.
fn rounded_weight(x: f32) -> i32
    requires { T (small_weight x) }
    ensures { result ≡ weight x }
{
    round_half_away(x * 8192.0)
}

impl CbCrForwardTransform<f32> {
    // The weights, each to the nearest whole number.
    pub fn to_integers(self) -> CbCrForwardTransform<i32>
        requires { SmallWeights self }
        ensures { result ≡ to_integers self }
    {
        CbCrForwardTransform {
            yr: rounded_weight(self.yr),
            yg: rounded_weight(self.yg),
            yb: rounded_weight(self.yb),
            cb_r: rounded_weight(self.cb_r),
            cb_g: rounded_weight(self.cb_g),
            cb_b: rounded_weight(self.cb_b),
            cr_r: rounded_weight(self.cr_r),
            cr_g: rounded_weight(self.cr_g),
            cr_b: rounded_weight(self.cr_b),
        }
    }
}

// The weights of a pair: the Rust's `search_forward_transform` where no set is stored.
pub fn computed_transform(range: YuvRange, bias: YuvBias) -> CbCrForwardTransform<i32>
    requires red { T (in_half bias.kr) }
    requires blue { T (in_half bias.kb) }
    ensures { result ≡ computed_weights range bias }
{
    let chroma_range = yuv_support::get_yuv_range(range);
    get_forward_transform(
        255,
        chroma_range.range_y,
        chroma_range.range_uv,
        bias.kr,
        bias.kb,
    )
    .to_integers()
}
