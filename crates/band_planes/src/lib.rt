// The rows of a band into the three planes, step by step: each step writes what its rows finish. In 4:2:2 a step is one row; in 4:2:0 two rows that
// share a chroma row. A band of 4:2:0 that starts between two such rows takes its first row alone, below the carried row, and one that ends
// there its last row. So bands of one row of 4:2:0 take single rows only, and the rows of 4:2:0 and of 4:2:2 are functions of their own.
//
// The planes are lent one by one: from a struct of the three, lent in its turn, each contract would have to say as well that y, u and v still are the
// same slices in it. The carried row is no field of `Work`: each step would ask for one then, and one step reads it.
#![tactic(auto)]

ghost use Rattle.std.specs.Prelude.{◌+◌, ◌*◌, ◌%◌, ◌≤◌, ◌≡◌, length};
ghost use Rattle.definitions.specs.Image.{Image, pixel_size};
ghost use Rattle.definitions.specs.Bands.{band_image, Sharpened};
ghost use Rattle.yuv_error.specs.Known.{Lent};
ghost use Rattle.band_steps.specs.Steps.{band_of, frame_of, Sees};
ghost use Rattle.band_planes.specs.Rows.{ForRows};

use band_steps::{BandRows, Work};
use definitions::Band;
use pixel_pairs::frame_tables::{FrameTables, LumaTables};
use pixel_pairs::tables;
use yuv_support::YuvChromaSubsampling;

// The first row of a band of 4:2:0 that starts between the two rows of a chroma row.
fn first_row<const N: usize>(work: &Work, carried: &[u8], y: &mut [u8], u: &mut [u8], v: &mut [u8])
    requires for_rows { ForRows YuvChromaSubsampling.Yuv420 N (band_of work.now) (length work.now.source.now) (length y.old) (length u.old) (length v.old) }
    requires carried_long { 3 * (frame_of work.now).width ≤ length carried.now }
    requires odd_start { work.now.rows.done % 2 ≡ 1 }
    ensures { Sharpened (frame_of work.now) work.now.rows.done (work.now.rows.done + 1) (band_image (band_of work.now) work.now.source.now carried.now)
        y.old u.old v.old y.new u.new v.new }
{
    let step = band_steps::step_at(work.tables.luma.rows.frame, work.rows, work.rows.done);
    band_steps::luma_step::<N>(&work.tables.luma, work.rows, step, work.source, y);
    band_steps::carried_step::<N>(work, step, carried, u, v);
}

// The row that pairs of rows of 4:2:0 start from; a row before it is written.
fn pairs_start<const N: usize>(
    work: &Work,
    carried: &[u8],
    y: &mut [u8],
    u: &mut [u8],
    v: &mut [u8],
) -> usize
    requires for_rows { ForRows YuvChromaSubsampling.Yuv420 N (band_of work.now) (length work.now.source.now) (length y.old) (length u.old) (length v.old) }
    requires carried_long { 3 * (frame_of work.now).width ≤ length carried.now }
    ensures even_start { (work.now.rows.done ≤ result) × (result ≤ work.now.rows.done + work.now.rows.count) × (result % 2 ≡ 0) }
    ensures sharpened { Sharpened (frame_of work.now) work.now.rows.done result (band_image (band_of work.now) work.now.source.now carried.now)
        y.old u.old v.old y.new u.new v.new }
{
    let done = work.rows.done;
    if done % 2 == 0 {
        return done;
    }
    first_row::<N>(work, carried, y, u, v);
    done + 1
}

// The last row of a band of 4:2:0 that ends between the two rows of a chroma row, or with an odd height.
fn last_row<const N: usize>(work: &Work, row: usize, y: &mut [u8], u: &mut [u8], v: &mut [u8])
    requires for_rows { ForRows YuvChromaSubsampling.Yuv420 N (band_of work.now) (length work.now.source.now) (length y.old) (length u.old) (length v.old) }
    requires last_row { (work.now.rows.done ≤ row) × (row + 1 ≡ work.now.rows.done + work.now.rows.count) × (row % 2 ≡ 0) }
    ensures { (image : Image) → Sees (band_of work.now) work.now.source.now image → Sharpened (frame_of work.now) row (row + 1) image
        y.old u.old v.old y.new u.new v.new }
{
    let step = band_steps::step_at(work.tables.luma.rows.frame, work.rows, row);
    band_steps::luma_step::<N>(&work.tables.luma, work.rows, step, work.source, y);
    if row + 1 == work.tables.luma.rows.frame.height as usize {
        band_steps::alone_step::<N>(work, step, u, v);
    }
}

// Pairs of rows of 4:2:0 from an even row on, as far as the band goes; answers the row after them.
fn pair_rows<const N: usize>(
    work: &Work,
    from: usize,
    y: &mut [u8],
    u: &mut [u8],
    v: &mut [u8],
) -> usize
    requires for_rows { ForRows YuvChromaSubsampling.Yuv420 N (band_of work.now) (length work.now.source.now) (length y.old) (length u.old) (length v.old) }
    requires even_start { (work.now.rows.done ≤ from) × (from ≤ work.now.rows.done + work.now.rows.count) × (from % 2 ≡ 0) }
    ensures row_after { (from ≤ result) × (result ≤ work.now.rows.done + work.now.rows.count) × (work.now.rows.done + work.now.rows.count ≤ result + 1) × (result % 2 ≡ 0) }
    ensures sharpened { (image : Image) → Sees (band_of work.now) work.now.source.now image → Sharpened (frame_of work.now) from result image
        y.old u.old v.old y.new u.new v.new }
{
    let end = work.rows.done + work.rows.count;
    let pairs = (end - from) / 2;
    for k in 0..pairs {
        let step = band_steps::step_at(work.tables.luma.rows.frame, work.rows, from + 2 * k);
        band_steps::pair_step::<N>(work, step, y, u, v);
    }
    from + 2 * pairs
}

// All rows of a band of 4:2:2.
fn rows422<const N: usize>(work: &Work, y: &mut [u8], u: &mut [u8], v: &mut [u8])
    requires { ForRows YuvChromaSubsampling.Yuv422 N (band_of work.now) (length work.now.source.now) (length y.old) (length u.old) (length v.old) }
    ensures { (image : Image) → Sees (band_of work.now) work.now.source.now image
        → Sharpened (frame_of work.now) work.now.rows.done (work.now.rows.done + work.now.rows.count) image
        y.old u.old v.old y.new u.new v.new }
{
    let end = work.rows.done + work.rows.count;
    for row in work.rows.done..end {
        let step = band_steps::step_at(work.tables.luma.rows.frame, work.rows, row);
        band_steps::row_step::<N>(work, step, y, u, v);
    }
}

// All rows of a band of 4:2:0.
fn rows420<const N: usize>(work: &Work, carried: &[u8], y: &mut [u8], u: &mut [u8], v: &mut [u8])
    requires for_rows { ForRows YuvChromaSubsampling.Yuv420 N (band_of work.now) (length work.now.source.now) (length y.old) (length u.old) (length v.old) }
    requires carried_long { 3 * (frame_of work.now).width ≤ length carried.now }
    ensures { Sharpened (frame_of work.now) work.now.rows.done (work.now.rows.done + work.now.rows.count) (band_image (band_of work.now) work.now.source.now carried.now)
        y.old u.old v.old y.new u.new v.new }
{
    let end = work.rows.done + work.rows.count;
    let from = pairs_start::<N>(work, carried, y, u, v);
    let row = pair_rows::<N>(work, from, y, u, v);
    if row < end {
        last_row::<N>(work, row, y, u, v);
    }
}

// All rows of a band.
fn rows_of<const N: usize>(work: &Work, carried: &[u8], y: &mut [u8], u: &mut [u8], v: &mut [u8])
    requires pixel { N ≡ pixel_size (frame_of work.now) }
    requires lent { Lent (band_of work.now) (length work.now.source.now) (length y.old) (length u.old) (length v.old) }
    requires carried_long { 3 * (frame_of work.now).width ≤ length carried.now }
    ensures { Sharpened (frame_of work.now) work.now.rows.done (work.now.rows.done + work.now.rows.count) (band_image (band_of work.now) work.now.source.now carried.now)
        y.old u.old v.old y.new u.new v.new }
{
    match work.tables.luma.rows.frame.settings.sampling {
        YuvChromaSubsampling::Yuv420 => rows420::<N>(work, carried, y, u, v),
        YuvChromaSubsampling::Yuv422 => rows422::<N>(work, y, u, v),
    }
}

// The bytes of a pixel are a number from here on.
fn rows_by_pixel(work: &Work, carried: &[u8], y: &mut [u8], u: &mut [u8], v: &mut [u8])
    requires lent { Lent (band_of work.now) (length work.now.source.now) (length y.old) (length u.old) (length v.old) }
    requires carried_long { 3 * (frame_of work.now).width ≤ length carried.now }
    ensures { Sharpened (frame_of work.now) work.now.rows.done (work.now.rows.done + work.now.rows.count) (band_image (band_of work.now) work.now.source.now carried.now)
        y.old u.old v.old y.new u.new v.new }
{
    let settings = work.tables.luma.rows.frame.settings;
    if settings.channels.get_channels_count() == 3 {
        rows_of::<3>(work, carried, y, u, v);
    } else {
        rows_of::<4>(work, carried, y, u, v);
    }
}

// The rows of a band into the planes of its frame: every row that they finish is written, and no other byte.
// The carried row stands for the row before the band; it is read in 4:2:0 where the rows done are odd.
pub fn sharpen_band(
    band: Band,
    source: &[u8],
    carried: &[u8],
    y: &mut [u8],
    u: &mut [u8],
    v: &mut [u8],
)
    requires lent { Lent band (length source.now) (length y.old) (length u.old) (length v.old) }
    requires width_in_bounds { 3 * band.frame.width ≤ length carried.now }
    ensures { Sharpened band.frame band.done (band.done + band.rows) (band_image band source.now carried.now)
        y.old u.old v.old y.new u.new v.new }
{
    let frame = band.frame;
    let settings = frame.settings;
    let t = built_coefficients::search_forward_transform(settings.range, settings.matrix);
    let rows = tables::conversion_of(frame, t);
    let linear = sharp_gamma::linear_map_table(settings.transfer, settings.rounding);
    // No heap in a call: both tables are arrays, and each is filled whole.
    let mut gamma = [0u8; 65536];
    sharp_gamma::gamma_map_table(settings.transfer, settings.rounding, &mut gamma);
    let mut sums = [0u64; 1536];
    tables::sum_tables(frame, t, &linear, &mut sums);
    let luma = LumaTables { rows, sums: &sums };
    let tables = FrameTables {
        luma,
        gamma: &gamma,
    };
    let work = Work {
        tables,
        rows: BandRows {
            done: band.done as usize,
            count: band.rows as usize,
            stride: band.stride as usize,
        },
        source,
    };
    rows_by_pixel(&work, carried, y, u, v);
}
