// The stored weights, and the search among stored and computed ones (the Rust's built_coefficients.rs).
#![tactic(auto)]

ghost use Rattle.std.specs.Prelude.{◌≡◌, ◌<◌, T};
ghost use Rattle.yuv_support.specs.Matrix.{accepted};
ghost use Rattle.built_coefficients.specs.Built.{built_transform, forward_transform};
ghost use Rattle.built_coefficients.specs.Table.{stored_set, stored_pair};

use forward_transform::CbCrForwardTransform;
use yuv_support::{YuvRange, YuvStandardMatrix};

// The sets of a matrix stand side by side, Limited before Full.
const BUILT: [CbCrForwardTransform<i32>; 10] = [
    // FORWARD_BT601_LIMITED_8_13PREC
    CbCrForwardTransform {
        yr: 2104,
        yg: 4130,
        yb: 802,
        cb_r: -1214,
        cb_g: -2384,
        cb_b: 3598,
        cr_r: 3598,
        cr_g: -3013,
        cr_b: -585,
    },
    // FORWARD_BT601_FULL_8_13PREC
    CbCrForwardTransform {
        yr: 2449,
        yg: 4809,
        yb: 934,
        cb_r: -1382,
        cb_g: -2714,
        cb_b: 4096,
        cr_r: 4096,
        cr_g: -3430,
        cr_b: -666,
    },
    // FORWARD_BT709_LIMITED_8_13PREC
    CbCrForwardTransform {
        yr: 1496,
        yg: 5032,
        yb: 508,
        cb_r: -824,
        cb_g: -2774,
        cb_b: 3598,
        cr_r: 3598,
        cr_g: -3268,
        cr_b: -330,
    },
    // FORWARD_BT709_FULL_8_13PREC
    CbCrForwardTransform {
        yr: 1742,
        yg: 5859,
        yb: 591,
        cb_r: -939,
        cb_g: -3157,
        cb_b: 4096,
        cr_r: 4096,
        cr_g: -3720,
        cr_b: -376,
    },
    // FORWARD_BT2020_LIMITED_8_13PREC
    CbCrForwardTransform {
        yr: 1848,
        yg: 4770,
        yb: 417,
        cb_r: -1005,
        cb_g: -2593,
        cb_b: 3598,
        cr_r: 3598,
        cr_g: -3309,
        cr_b: -289,
    },
    // FORWARD_BT2020_FULL_8_13PREC
    CbCrForwardTransform {
        yr: 2152,
        yg: 5554,
        yb: 486,
        cb_r: -1144,
        cb_g: -2952,
        cb_b: 4096,
        cr_r: 4096,
        cr_g: -3767,
        cr_b: -329,
    },
    // FORWARD_SMPTE240_LIMITED_8_13PREC
    CbCrForwardTransform {
        yr: 612,
        yg: 4932,
        yb: 1492,
        cb_r: -397,
        cb_g: -3201,
        cb_b: 3598,
        cr_r: 3598,
        cr_g: -2763,
        cr_b: -835,
    },
    // FORWARD_SMPTE240_FULL_8_13PREC
    CbCrForwardTransform {
        yr: 713,
        yg: 5743,
        yb: 1737,
        cb_r: -452,
        cb_g: -3644,
        cb_b: 4096,
        cr_r: 4096,
        cr_g: -3145,
        cr_b: -951,
    },
    // FORWARD_BT470_LIMITED_8_13PREC
    CbCrForwardTransform {
        yr: 1562,
        yg: 4972,
        yb: 502,
        cb_r: -860,
        cb_g: -2738,
        cb_b: 3598,
        cr_r: 3598,
        cr_g: -3268,
        cr_b: -330,
    },
    // FORWARD_BT470_FULL_8_13PREC
    CbCrForwardTransform {
        yr: 1819,
        yg: 5789,
        yb: 584,
        cb_r: -979,
        cb_g: -3117,
        cb_b: 4096,
        cr_r: 4096,
        cr_g: -3721,
        cr_b: -375,
    },
];

// The one place that names the table: a constant is made anew wherever it is named.
fn stored_set(index: usize) -> CbCrForwardTransform<i32>
    requires { index < 10 }
    ensures { result ≡ stored_set index }
{
    BUILT[index]
}

// The set for the range, of the two that begin at `first`. Its match chooses a set, and no step.
fn stored_pair(first: usize, range: YuvRange) -> CbCrForwardTransform<i32>
    requires { first < 9 }
    ensures { result ≡ stored_pair first range }
{
    match range {
        YuvRange::Limited => stored_set(first),
        YuvRange::Full => stored_set(first + 1),
    }
}

// The stored set of a matrix in a range, if it has one. Range and matrix come as two parameters, here, in `colour_counts` and in `counts_request`: weights
// turn on these two of a frame's settings alone, and a struct of both would be made for a call and taken apart in it.
pub fn get_built_forward_transform(
    range: YuvRange,
    matrix: YuvStandardMatrix,
) -> Option<CbCrForwardTransform<i32>>
    ensures { result ≡ built_transform range matrix }
{
    match matrix {
        YuvStandardMatrix::Bt601 => Some(stored_pair(0, range)),
        YuvStandardMatrix::Bt709 => Some(stored_pair(2, range)),
        YuvStandardMatrix::Bt2020 => Some(stored_pair(4, range)),
        YuvStandardMatrix::Smpte240 => Some(stored_pair(6, range)),
        YuvStandardMatrix::Bt470_6 => Some(stored_pair(8, range)),
        YuvStandardMatrix::Fcc | YuvStandardMatrix::Custom(_, _) => None,
    }
}

// The weights of an accepted matrix: stored, or else computed.
#[tactic(auto, unfolding(crate::specs::Built::forward_transform))]
pub fn search_forward_transform(
    range: YuvRange,
    matrix: YuvStandardMatrix,
) -> CbCrForwardTransform<i32>
    requires { T (accepted matrix) }
    ensures { result ≡ forward_transform range matrix }
{
    get_built_forward_transform(range, matrix).unwrap_or_else(
        || forward_transform::computed_transform(range, matrix.get_kr_kb()),
    )
}
