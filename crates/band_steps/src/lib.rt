// A step of a band: where the bytes of a row stand in the source and in the planes, and what the row, or two rows that share a chroma row,
// write there. N is the bytes of a pixel. What is lent is said in each contract, and no type carries it: the planes are lent one by one (band_planes says
// why), and `ForStep` speaks of their lengths.
#![tactic(auto)]

ghost use Rattle.std.specs.Prelude.{◌≡◌, ◌+◌, ◌*◌, ◌-◌, ◌/◌, ◌%◌, ◌≤◌, ◌<◌, length};
ghost use Rattle.definitions.specs.Row.{pixels_of};
ghost use Rattle.definitions.specs.Image.{Image, row_start};
ghost use Rattle.definitions.specs.Bands.{Sharpened};
ghost use Rattle.band_steps.specs.Steps.{band_by, band_of, frame_of, chroma_row, step_of, SourceAt, YAt, PairAt, ForStep, Sees, LumaIs, ChromaIs};

use definitions::FrameDescription;
use pixel_pairs::frame_tables::{FrameTables, LumaTables};
use yuv_support::YuvChromaSubsampling;

// Rows of a frame: `count` rows after the first `done`, `stride` bytes apart in their source.
#[derive(Clone, Copy, Debug, PartialEq, Eq)]
pub struct BandRows {
    pub done: usize,
    pub count: usize,
    pub stride: usize,
}

// A band: its rows in their source, with what is worked out once for them.
#[derive(Clone, Copy)]
pub struct Work<'a, 'b, 'c> {
    pub tables: FrameTables<'a, 'b>,
    pub rows: BandRows,
    pub source: &'c [u8],
}

// A row of a band: where its bytes start in the source and in each plane, and how many there are. The steps slice by it: a method that answered a part
// lent by `&mut` would need a contract on what comes back, which the slice expression has.
#[derive(Clone, Copy, Debug, PartialEq, Eq)]
pub struct Step {
    pub row: usize,
    pub source: usize,
    pub size: usize,
    pub y: usize,
    pub width: usize,
    pub u: usize,
    pub v: usize,
    pub chroma: usize,
}

fn chroma_row(sampling: YuvChromaSubsampling, row: usize) -> usize
    ensures { result ≡ chroma_row sampling row }
{
    match sampling {
        YuvChromaSubsampling::Yuv420 => row / 2,
        YuvChromaSubsampling::Yuv422 => row,
    }
}

// The step of a row.
pub fn step_at(frame: FrameDescription, rows: BandRows, row: usize) -> Step
    requires small { (frame.width ≤ 16384) × (frame.window.left ≤ 16384) × (rows.done ≤ row) × (row ≤ 16384) }
    requires start_fits { row_start frame rows.stride (row - rows.done) < 18446744073709551616 }
    ensures { result ≡ step_of (band_by frame rows) row }
{
    let width = frame.width as usize;
    let k = chroma_row(frame.settings.sampling, row);
    Step {
        row,
        source: definitions::row_start(frame, row - rows.done, rows.stride),
        size: definitions::row_size(frame),
        y: row * frame.y_stride as usize,
        width,
        u: k * frame.u_stride as usize,
        v: k * frame.v_stride as usize,
        chroma: yuv_support::chroma_width(width),
    }
}

// The luma of one row: it asks for no gamma table.
pub fn luma_step<const N: usize>(
    tables: &LumaTables,
    rows: BandRows,
    step: Step,
    source: &[u8],
    y: &mut [u8],
)
    requires source_at { SourceAt N (band_by tables.now.rows.frame rows) step (length source.now) }
    requires in_y { YAt (band_by tables.now.rows.frame rows) step (length y.old) }
    ensures { (image : Image) → Sees (band_by tables.now.rows.frame rows) source.now image
        → LumaIs tables.now.rows.frame step.row (step.row + 1) image y.old y.new }
{
    sharpen_row::luma_row::<N>(
        tables,
        &source[step.source..step.source + step.size],
        &mut y[step.y..step.y + step.width],
    );
}

// The chroma of a row of 4:2:0 and the carried row above it.
pub fn carried_step<const N: usize>(
    work: &Work,
    step: Step,
    carried: &[u8],
    u: &mut [u8],
    v: &mut [u8],
)
    requires for_step { ForStep YuvChromaSubsampling.Yuv420 N (band_of work.now) step (length work.now.source.now) (length u.old) (length v.old) }
    requires carried_long { 3 * (frame_of work.now).width ≤ length carried.now }
    requires first_row { (step.row % 2 ≡ 1) × (step.row < (frame_of work.now).height) × (step.row ≡ work.now.rows.done) }
    ensures { (image : Image) → Sees (band_of work.now) work.now.source.now image → pixels_of 3 carried.now ≡ image (step.row - 1)
        → ChromaIs (frame_of work.now) (step.row / 2) image u.old v.old u.new v.new }
{
    sharpen_row::chroma_row420::<3, N>(
        &work.tables,
        carried,
        &work.source[step.source..step.source + step.size],
        &mut u[step.u..step.u + step.chroma],
        &mut v[step.v..step.v + step.chroma],
    );
}

// The chroma of an odd height's last row of 4:2:0, which is below itself.
pub fn alone_step<const N: usize>(work: &Work, step: Step, u: &mut [u8], v: &mut [u8])
    requires for_step { ForStep YuvChromaSubsampling.Yuv420 N (band_of work.now) step (length work.now.source.now) (length u.old) (length v.old) }
    requires last_row { (step.row % 2 ≡ 0) × (step.row + 1 ≡ (frame_of work.now).height) }
    ensures { (image : Image) → Sees (band_of work.now) work.now.source.now image
        → ChromaIs (frame_of work.now) (step.row / 2) image u.old v.old u.new v.new }
{
    sharpen_row::chroma_row420::<N, N>(
        &work.tables,
        &work.source[step.source..step.source + step.size],
        &work.source[step.source..step.source + step.size],
        &mut u[step.u..step.u + step.chroma],
        &mut v[step.v..step.v + step.chroma],
    );
}

// Two rows of 4:2:0 that share a chroma row.
pub fn pair_step<const N: usize>(work: &Work, step: Step, y: &mut [u8], u: &mut [u8], v: &mut [u8])
    requires for_step { ForStep YuvChromaSubsampling.Yuv420 N (band_of work.now) step (length work.now.source.now) (length u.old) (length v.old) }
    requires in_y { YAt (band_of work.now) step (length y.old) }
    requires pair_at { PairAt (band_of work.now) step (length work.now.source.now) (length y.old) }
    ensures { (image : Image) → Sees (band_of work.now) work.now.source.now image → Sharpened (frame_of work.now) step.row (step.row + 2) image
        y.old u.old v.old y.new u.new v.new }
{
    let below = step.source + work.rows.stride;
    let lower = step.y + work.tables.luma.rows.frame.y_stride as usize;
    sharpen_row::sharpen_rows420::<N>(
        &work.tables,
        &work.source[step.source..step.source + step.size],
        &work.source[below..below + step.size],
        &mut y[step.y..lower + step.width],
        &mut u[step.u..step.u + step.chroma],
        &mut v[step.v..step.v + step.chroma],
    );
}

// One row of 4:2:2.
pub fn row_step<const N: usize>(work: &Work, step: Step, y: &mut [u8], u: &mut [u8], v: &mut [u8])
    requires for_step { ForStep YuvChromaSubsampling.Yuv422 N (band_of work.now) step (length work.now.source.now) (length u.old) (length v.old) }
    requires in_y { YAt (band_of work.now) step (length y.old) }
    ensures { (image : Image) → Sees (band_of work.now) work.now.source.now image → Sharpened (frame_of work.now) step.row (step.row + 1) image
        y.old u.old v.old y.new u.new v.new }
{
    sharpen_row::sharpen_row422::<N>(
        &work.tables,
        &work.source[step.source..step.source + step.size],
        &mut y[step.y..step.y + step.width],
        &mut u[step.u..step.u + step.chroma],
        &mut v[step.v..step.v + step.chroma],
    );
}
