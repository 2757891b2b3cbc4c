// Settings from numbers, for callers that have no enums: the codes of a request and of the C functions. The other way round is `u32::from` of each, and
// of a matrix `matrix_code` too.
#![tactic(auto)]

ghost use Rattle.std.specs.Prelude.{◌≡◌, get_or};
ghost use Rattle.setting_codes.specs.Codes.{channels_codes, sampling_codes, range_codes, transfer_codes, rounding_codes, matrix_code};

use sharp_gamma::{SharpYuvGammaTransfer, TableRounding};
use yuv_support::{YuvChromaSubsampling, YuvRange, YuvSourceChannels, YuvStandardMatrix};

// Each of the five is one line over the `TryFrom` that stands beside its type, which has no value for a code without a meaning: callers that refuse such a
// code elsewhere want the first meaning for it. One function over the five types would be `try_from(code).unwrap_or(first)` itself, with the first meaning
// at each call; and for `unwrap_or_default` each type would need a `Default`, where the first meaning is a rule of the numbers alone: no Rust caller has a
// setting by default. A matrix is read by `call_numbers`, which has the kr and kb of a Custom one.
pub fn channels_of(code: u32) -> YuvSourceChannels
    ensures { result ≡ get_or channels_codes code YuvSourceChannels.Rgb }
{
    YuvSourceChannels::try_from(code).unwrap_or(YuvSourceChannels::Rgb)
}

pub fn sampling_of(code: u32) -> YuvChromaSubsampling
    ensures { result ≡ get_or sampling_codes code YuvChromaSubsampling.Yuv420 }
{
    YuvChromaSubsampling::try_from(code).unwrap_or(YuvChromaSubsampling::Yuv420)
}

pub fn range_of(code: u32) -> YuvRange
    ensures { result ≡ get_or range_codes code YuvRange.Limited }
{
    YuvRange::try_from(code).unwrap_or(YuvRange::Limited)
}

pub fn transfer_of(code: u32) -> SharpYuvGammaTransfer
    ensures { result ≡ get_or transfer_codes code SharpYuvGammaTransfer.Srgb }
{
    SharpYuvGammaTransfer::try_from(code).unwrap_or(SharpYuvGammaTransfer::Srgb)
}

pub fn rounding_of(code: u32) -> TableRounding
    ensures { result ≡ get_or rounding_codes code TableRounding.Truncated }
{
    TableRounding::try_from(code).unwrap_or(TableRounding::Truncated)
}

// Every Custom matrix has the code 6: kr and kb are no part of it.
pub fn matrix_code(matrix: YuvStandardMatrix) -> u32
    ensures { result ≡ matrix_code matrix }
{
    u32::from(matrix)
}
