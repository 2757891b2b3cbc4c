ghost use Rattle.sharp_gamma.specs.Entry.{TableOf};
ghost use Rattle.definitions.specs.Row.{gamma_of};
ghost use Rattle.pixel_pairs.specs.Tables.{Summed};

use crate::tables::Conversion;

// What is worked out once a call for luma: the frame's conversion, and the tables of sums, the left one first.
#[derive(Clone, Copy)]
pub struct LumaTables<'a> {
    pub rows: Conversion,
    pub sums: &'a [u64; 1536],
    ghost summed: { Summed rows sums.now },
}

// And for chroma beside it: the gamma table, which is lent apart, and so for a time of its own.
#[derive(Clone, Copy)]
pub struct FrameTables<'a, 'b> {
    pub luma: LumaTables<'a>,
    pub gamma: &'b [u8; 65536],
    ghost corrects: { TableOf 65536 (gamma_of luma.rows.frame.settings) gamma.now },
}
