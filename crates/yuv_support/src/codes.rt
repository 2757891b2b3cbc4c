// The codes of the settings: each setting from its code, and the code of each setting. A code without a meaning is an error. Each `try_from`, the two of
// crate `sharp_gamma` too, lists its own codes, as RULES 1.2 does: one function over lists of settings would say a code only by its place in a list.

ghost use Rattle.std.specs.Prelude.{◌≡◌};

use crate::{UnknownCode, YuvChromaSubsampling, YuvRange, YuvSourceChannels, YuvStandardMatrix};

impl TryFrom<u32> for YuvSourceChannels {
    ghost use Rattle.yuv_support.specs.declared.YuvSourceChannels.TheVariants.{Rgb};
    ghost use Rattle.yuv_support.specs.Codes.{Decoded, channels_codes};

    type Error = UnknownCode;

    ghost try_from_gives = { λ code r. Decoded channels_codes Rgb code r };

    fn try_from(code: u32) -> Result<YuvSourceChannels, UnknownCode> {
        match code {
            0 => Ok(YuvSourceChannels::Rgb),
            1 => Ok(YuvSourceChannels::Rgba),
            2 => Ok(YuvSourceChannels::Bgra),
            3 => Ok(YuvSourceChannels::Bgr),
            _ => Err(UnknownCode(code)),
        }
    }
}

impl TryFrom<u32> for YuvChromaSubsampling {
    ghost use Rattle.yuv_support.specs.declared.YuvChromaSubsampling.TheVariants.{Yuv420};
    ghost use Rattle.yuv_support.specs.Codes.{Decoded, sampling_codes};

    type Error = UnknownCode;

    ghost try_from_gives = { λ code r. Decoded sampling_codes Yuv420 code r };

    fn try_from(code: u32) -> Result<YuvChromaSubsampling, UnknownCode> {
        match code {
            0 => Ok(YuvChromaSubsampling::Yuv420),
            1 => Ok(YuvChromaSubsampling::Yuv422),
            _ => Err(UnknownCode(code)),
        }
    }
}

impl TryFrom<u32> for YuvRange {
    ghost use Rattle.yuv_support.specs.declared.YuvRange.TheVariants.{Limited};
    ghost use Rattle.yuv_support.specs.Codes.{Decoded, range_codes};

    type Error = UnknownCode;

    ghost try_from_gives = { λ code r. Decoded range_codes Limited code r };

    fn try_from(code: u32) -> Result<YuvRange, UnknownCode> {
        match code {
            0 => Ok(YuvRange::Limited),
            1 => Ok(YuvRange::Full),
            _ => Err(UnknownCode(code)),
        }
    }
}

// The six named matrices: no code tells kr and kb.
impl TryFrom<u32> for YuvStandardMatrix {
    ghost use Rattle.yuv_support.specs.declared.YuvStandardMatrix.TheVariants.{Bt601};
    ghost use Rattle.yuv_support.specs.Codes.{Decoded, matrix_codes};

    type Error = UnknownCode;

    ghost try_from_gives = { λ code r. Decoded matrix_codes Bt601 code r };

    fn try_from(code: u32) -> Result<YuvStandardMatrix, UnknownCode> {
        match code {
            0 => Ok(YuvStandardMatrix::Bt601),
            1 => Ok(YuvStandardMatrix::Bt709),
            2 => Ok(YuvStandardMatrix::Bt2020),
            3 => Ok(YuvStandardMatrix::Smpte240),
            4 => Ok(YuvStandardMatrix::Bt470_6),
            5 => Ok(YuvStandardMatrix::Fcc),
            _ => Err(UnknownCode(code)),
        }
    }
}

impl From<YuvSourceChannels> for u32 {
    ghost use Rattle.yuv_support.specs.Codes.{channels_code};

    ghost from_gives = { λ channels code. code ≡ channels_code channels };

    fn from(channels: YuvSourceChannels) -> u32 {
        match channels {
            YuvSourceChannels::Rgb => 0,
            YuvSourceChannels::Rgba => 1,
            YuvSourceChannels::Bgra => 2,
            YuvSourceChannels::Bgr => 3,
        }
    }
}

impl From<YuvChromaSubsampling> for u32 {
    ghost use Rattle.yuv_support.specs.Codes.{sampling_code};

    ghost from_gives = { λ sampling code. code ≡ sampling_code sampling };

    fn from(sampling: YuvChromaSubsampling) -> u32 {
        match sampling {
            YuvChromaSubsampling::Yuv420 => 0,
            YuvChromaSubsampling::Yuv422 => 1,
        }
    }
}

impl From<YuvRange> for u32 {
    ghost use Rattle.yuv_support.specs.Codes.{range_code};

    ghost from_gives = { λ range code. code ≡ range_code range };

    fn from(range: YuvRange) -> u32 {
        match range {
            YuvRange::Limited => 0,
            YuvRange::Full => 1,
        }
    }
}

// Every Custom matrix has the code 6: kr and kb are no part of it.
impl From<YuvStandardMatrix> for u32 {
    ghost use Rattle.yuv_support.specs.Codes.{matrix_code};

    ghost from_gives = { λ matrix code. code ≡ matrix_code matrix };

    fn from(matrix: YuvStandardMatrix) -> u32 {
        match matrix {
            YuvStandardMatrix::Bt601 => 0,
            YuvStandardMatrix::Bt709 => 1,
            YuvStandardMatrix::Bt2020 => 2,
            YuvStandardMatrix::Smpte240 => 3,
            YuvStandardMatrix::Bt470_6 => 4,
            YuvStandardMatrix::Fcc => 5,
            YuvStandardMatrix::Custom(_, _) => 6,
        }
    }
}
