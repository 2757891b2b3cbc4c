// The codes of the transfers and roundings: each from its code, and the code of each. A code without a meaning is an error.

ghost use Rattle.std.specs.Prelude.{◌≡◌};

use crate::{SharpYuvGammaTransfer, TableRounding};
use yuv_support::UnknownCode;

impl TryFrom<u32> for SharpYuvGammaTransfer {
    ghost use Rattle.yuv_support.specs.Codes.{Decoded};
    ghost use Rattle.sharp_gamma.specs.declared.SharpYuvGammaTransfer.TheVariants.{Srgb};
    ghost use Rattle.sharp_gamma.specs.Codes.{transfer_codes};

    type Error = UnknownCode;

    ghost try_from_gives = { λ code r. Decoded transfer_codes Srgb code r };

    fn try_from(code: u32) -> Result<SharpYuvGammaTransfer, UnknownCode> {
        match code {
            0 => Ok(SharpYuvGammaTransfer::Srgb),
            1 => Ok(SharpYuvGammaTransfer::Rec709),
            2 => Ok(SharpYuvGammaTransfer::Gamma2p2),
            3 => Ok(SharpYuvGammaTransfer::Gamma2p8),
            _ => Err(UnknownCode(code)),
        }
    }
}

impl TryFrom<u32> for TableRounding {
    ghost use Rattle.yuv_support.specs.Codes.{Decoded};
    ghost use Rattle.sharp_gamma.specs.declared.TableRounding.TheVariants.{Truncated};
    ghost use Rattle.sharp_gamma.specs.Codes.{rounding_codes};

    type Error = UnknownCode;

    ghost try_from_gives = { λ code r. Decoded rounding_codes Truncated code r };

    fn try_from(code: u32) -> Result<TableRounding, UnknownCode> {
        match code {
            0 => Ok(TableRounding::Truncated),
            1 => Ok(TableRounding::Nearest),
            _ => Err(UnknownCode(code)),
        }
    }
}

impl From<SharpYuvGammaTransfer> for u32 {
    ghost use Rattle.sharp_gamma.specs.Codes.{transfer_code};

    ghost from_gives = { λ transfer code. code ≡ transfer_code transfer };

    fn from(transfer: SharpYuvGammaTransfer) -> u32 {
        match transfer {
            SharpYuvGammaTransfer::Srgb => 0,
            SharpYuvGammaTransfer::Rec709 => 1,
            SharpYuvGammaTransfer::Gamma2p2 => 2,
            SharpYuvGammaTransfer::Gamma2p8 => 3,
        }
    }
}

impl From<TableRounding> for u32 {
    ghost use Rattle.sharp_gamma.specs.Codes.{rounding_code};

    ghost from_gives = { λ rounding code. code ≡ rounding_code rounding };

    fn from(rounding: TableRounding) -> u32 {
        match rounding {
            TableRounding::Truncated => 0,
            TableRounding::Nearest => 1,
        }
    }
}
