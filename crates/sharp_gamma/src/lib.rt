// The curve tables from which `rgbx_to_sharp_yuv` takes linear values and corrected bytes. A call
// makes both once and lends them to its rows.
#![tactic(auto)]

mod codes; // settings from numbers, and as numbers
mod nearest; // the constants of each rounding, made by tools/tables.py
mod truncated;

ghost use Rattle.std.specs.Prelude.{◌≡◌, length};
ghost use Rattle.sharp_gamma.specs.Entry.{TableOf, linear_entry, gamma_entry};
ghost use Rattle.sharp_gamma.specs.FirstIndices.{FirstIndices};

// Declares transfer function for transfer components into a linear colorspace and its inverse
#[derive(Clone, Copy, Debug, PartialEq, Eq, Hash)]
pub enum SharpYuvGammaTransfer {
    // sRGB Transfer function
    Srgb,
    // Rec.709 Transfer function
    Rec709,
    // Pure gamma 2.2 Transfer function
    Gamma2p2,
    // Pure gamma 2.8 Transfer function
    Gamma2p8,
}

// Which whole number stands in a table for the curve's value there, in both tables of a call alike
#[derive(Clone, Copy, Debug, PartialEq, Eq, Hash)]
pub enum TableRounding {
    // The largest that is not above the value
    Truncated,
    // The nearest, of two equally near the upper: a flat colour comes back closer to what it was
    Nearest,
}

// The linear value of each byte. Its match is that of `first_index_table` with other constants: a constant is made anew wherever it is named, so a struct of
// both tables of a curve would be made whole where one of them is wanted. Transfer and rounding come as two parameters: a struct of both would be made for a
// call and taken apart in it.
pub fn linear_map_table(transfer: SharpYuvGammaTransfer, rounding: TableRounding) -> [u16; 256]
    ensures { TableOf 256 (linear_entry transfer rounding) result }
{
    match rounding {
        TableRounding::Truncated => match transfer {
            SharpYuvGammaTransfer::Srgb => truncated::SRGB_LINEAR,
            SharpYuvGammaTransfer::Rec709 => truncated::REC709_LINEAR,
            SharpYuvGammaTransfer::Gamma2p2 => truncated::GAMMA2P2_LINEAR,
            SharpYuvGammaTransfer::Gamma2p8 => truncated::GAMMA2P8_LINEAR,
        },
        TableRounding::Nearest => match transfer {
            SharpYuvGammaTransfer::Srgb => nearest::SRGB_LINEAR,
            SharpYuvGammaTransfer::Rec709 => nearest::REC709_LINEAR,
            SharpYuvGammaTransfer::Gamma2p2 => nearest::GAMMA2P2_LINEAR,
            SharpYuvGammaTransfer::Gamma2p8 => nearest::GAMMA2P8_LINEAR,
        },
    }
}

// The byte for each linear value. 65,536 numbers are too many for a constant; but the byte rises
// with the value, so the table is runs of equal bytes, and 256 first indices say where each starts.
// It is filled where it stands: returned by value it could be copied, 64 KiB once a call.
pub fn gamma_map_table(
    transfer: SharpYuvGammaTransfer,
    rounding: TableRounding,
    table: &mut [u8; 65536],
)
    ensures { TableOf 65536 (gamma_entry transfer rounding) table.new }
{
    let first = first_index_table(transfer, rounding);
    for k in 0..255u8 {
        let start = first[k as usize] as usize;
        let end = first[k as usize + 1] as usize;
        table[start..end].fill(k);
    }
    table[first[255] as usize..].fill(255);
}

// For each byte k the first index whose gamma entry is at least k.
fn first_index_table(transfer: SharpYuvGammaTransfer, rounding: TableRounding) -> [u16; 256]
    ensures { FirstIndices (gamma_entry transfer rounding) result }
{
    match rounding {
        TableRounding::Truncated => match transfer {
            SharpYuvGammaTransfer::Srgb => truncated::SRGB_FIRST_INDEX,
            SharpYuvGammaTransfer::Rec709 => truncated::REC709_FIRST_INDEX,
            SharpYuvGammaTransfer::Gamma2p2 => truncated::GAMMA2P2_FIRST_INDEX,
            SharpYuvGammaTransfer::Gamma2p8 => truncated::GAMMA2P8_FIRST_INDEX,
        },
        TableRounding::Nearest => match transfer {
            SharpYuvGammaTransfer::Srgb => nearest::SRGB_FIRST_INDEX,
            SharpYuvGammaTransfer::Rec709 => nearest::REC709_FIRST_INDEX,
            SharpYuvGammaTransfer::Gamma2p2 => nearest::GAMMA2P2_FIRST_INDEX,
            SharpYuvGammaTransfer::Gamma2p8 => nearest::GAMMA2P8_FIRST_INDEX,
        },
    }
}
