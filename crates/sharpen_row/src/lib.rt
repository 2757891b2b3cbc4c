// Rows of luma and chroma, one pass over their pixels: pixel_pairs has what a pair of them comes to. N is the bytes of a pixel, a number in each loop:
// a loop with a variable there takes a tenth longer. 4:2:0 and 4:2:2 are functions of their own, here and there: they are lent other rows and promise
// other colours, so that one with a parameter would be two contracts in one.
// What is lent is said in each contract, and no type carries it: the planes are lent one by one (band_planes says why).
#![tactic(auto)]

ghost use Rattle.std.specs.Prelude.{◌≡◌, ◌+◌, ◌*◌, ◌-◌, ◌/◌, ◌≤◌, ◌<◌, min, length, get_or};
ghost use Rattle.definitions.specs.Painted.{Painted};
ghost use Rattle.definitions.specs.Row.{pixels_of, input420};
ghost use Rattle.definitions.specs.Image.{chroma_size};
ghost use Rattle.pixel_pairs.specs.Rows.{inputs420, inputs422, RowOf, ChromaRoom, Lent420, Lent422};
ghost use Rattle.pixel_pairs.specs.Rows.{LumaWritten, LumasWritten, ChromaWritten, Begun420, Begun422, Stepped};

use pixel_pairs::Block;
use pixel_pairs::frame_tables::{FrameTables, LumaTables};

// How far the start of a row of 4:2:2 is read ahead, and the step there, in pixels: a pair every 72 or 96 bytes, in most of its first cache lines.
const AHEAD: usize = 144;

const AHEAD_STEP: usize = 24;

// The pixel to the right of x, or x where it is the last. The two cases say just that; a `min` would say it by way of the number of the last pixel.
fn right_of(x: usize, width: usize) -> usize
    requires { x < width }
    ensures { result ≡ min (x + 1) (width - 1) }
{
    if x + 1 < width { x + 1 } else { x }
}

// Luma of a source row.
// Writes the first `width` bytes of `y`, and no other byte.
pub fn luma_row<const N: usize>(tables: &LumaTables, row: &[u8], y: &mut [u8])
    requires row_of { RowOf tables.now.rows.frame N row.now }
    requires luma_room { tables.now.rows.frame.width ≤ length y.old }
    ensures { LumaWritten tables.now.rows.frame N row.now y.old y.new }
{
    let width = tables.rows.frame.width as usize;
    for x in (0..width).step_by(2) {
        tables.luma_pair::<N>(row, x, right_of(x, width), y, 0);
    }
}

// 4:2:0 chroma of a row and the source row below it. `this` may be a carried row: it has C bytes a pixel.
// Writes the first `width / 2`, rounded up, bytes of `u` and of `v`, and no other byte.
pub fn chroma_row420<const C: usize, const N: usize>(
    tables: &FrameTables,
    this: &[u8],
    below: &[u8],
    u: &mut [u8],
    v: &mut [u8],
)
    requires upper_row { RowOf tables.now.luma.rows.frame C this.now }
    requires lower_row { RowOf tables.now.luma.rows.frame N below.now }
    requires chroma_room { ChromaRoom tables.now.luma.rows.frame u.old v.old }
    ensures { ChromaWritten tables.now.luma.rows.frame (input420 tables.now.luma.rows.frame (pixels_of C this.now) (pixels_of N below.now)) u.old v.old u.new v.new }
{
    let width = tables.luma.rows.frame.width as usize;
    for j in 0..yuv_support::chroma_width(width) {
        let x = 2 * j;
        let next = right_of(x, width);
        let a = pixel_pairs::pair::<C>(tables.luma.sums, this, x, next);
        let b = pixel_pairs::pair::<N>(tables.luma.sums, below, x, next);
        let c = pixel_pairs::mixed(tables.gamma, pixel_pairs::sixteenths(a, b));
        tables.luma.rows.put_chroma(c, j, u, v);
    }
}

// Two rows, four pixels a turn, as far as their last whole four. Both colours of a turn are looked up before either is weighed: a tenth faster. A row
// without one returns first, so that the loop is not tested before its first turn.
fn fours420<const N: usize>(
    tables: &FrameTables,
    this: &[u8],
    below: &[u8],
    y: &mut [u8],
    u: &mut [u8],
    v: &mut [u8],
)
    requires { Lent420 tables.now.luma.rows.frame N this.now below.now y.old u.old v.old }
    ensures { Begun420 tables.now.luma.rows.frame N this.now below.now (2 * (tables.now.luma.rows.frame.width / 4)) y.old u.old v.old y.new u.new v.new }
{
    if tables.luma.rows.frame.width < 4 {
        return;
    }
    for k in 0..tables.luma.rows.frame.width as usize / 4 {
        let j = 2 * k;
        let c = tables.four420::<N>(this, below, j, y);
        tables.luma.rows.put_chromas(c, j, u, v);
    }
}

// The pixels after the last whole four.
fn rest420<const N: usize>(
    tables: &FrameTables,
    this: &[u8],
    below: &[u8],
    y: &mut [u8],
    u: &mut [u8],
    v: &mut [u8],
)
    requires { Lent420 tables.now.luma.rows.frame N this.now below.now y.old u.old v.old }
    ensures { Stepped (Begun420 tables.now.luma.rows.frame N this.now below.now) (2 * (tables.now.luma.rows.frame.width / 4)) (chroma_size tables.now.luma.rows.frame)
        y.old u.old v.old y.new u.new v.new }
{
    let width = tables.luma.rows.frame.width as usize;
    for j in 2 * (width / 4)..yuv_support::chroma_width(width) {
        let next = right_of(2 * j, width);
        let block = Block { j, next };
        let b = tables.block420::<N>(this, below, block, y);
        tables.luma.rows.put_chroma(b, j, u, v);
    }
}

// Luma of two source rows, and their 4:2:0 chroma. `y` begins with the upper luma row, and the lower one begins at the frame's Y stride.
// Writes the first `width` bytes of both luma rows and the first `width / 2`, rounded up, bytes of `u` and of `v`, and no other byte.
pub fn sharpen_rows420<const N: usize>(
    tables: &FrameTables,
    this: &[u8],
    below: &[u8],
    y: &mut [u8],
    u: &mut [u8],
    v: &mut [u8],
)
    requires { Lent420 tables.now.luma.rows.frame N this.now below.now y.old u.old v.old }
    ensures lumas_written { LumasWritten tables.now.luma.rows.frame N this.now below.now y.old y.new }
    ensures chroma_written { ChromaWritten tables.now.luma.rows.frame (inputs420 tables.now.luma.rows.frame N this.now below.now) u.old v.old u.new v.new }
{
    fours420::<N>(tables, this, below, y, u, v);
    rest420::<N>(tables, this, below, y, u, v);
}

// A row, four pixels a turn, as far as its last whole four. A row without one returns first here too.
fn fours422<const N: usize>(
    tables: &FrameTables,
    this: &[u8],
    y: &mut [u8],
    u: &mut [u8],
    v: &mut [u8],
)
    requires { Lent422 tables.now.luma.rows.frame N this.now y.old u.old v.old }
    ensures { Begun422 tables.now.luma.rows.frame N this.now (2 * (tables.now.luma.rows.frame.width / 4)) y.old u.old v.old y.new u.new v.new }
{
    if tables.luma.rows.frame.width < 4 {
        return;
    }
    for k in 0..tables.luma.rows.frame.width as usize / 4 {
        let j = 2 * k;
        let c = tables.four422::<N>(this, j, y);
        tables.luma.rows.put_chromas(c, j, u, v);
    }
}

// The pixels after the last whole four.
fn rest422<const N: usize>(
    tables: &FrameTables,
    this: &[u8],
    y: &mut [u8],
    u: &mut [u8],
    v: &mut [u8],
)
    requires { Lent422 tables.now.luma.rows.frame N this.now y.old u.old v.old }
    ensures { Stepped (Begun422 tables.now.luma.rows.frame N this.now) (2 * (tables.now.luma.rows.frame.width / 4)) (chroma_size tables.now.luma.rows.frame)
        y.old u.old v.old y.new u.new v.new }
{
    let width = tables.luma.rows.frame.width as usize;
    for j in 2 * (width / 4)..yuv_support::chroma_width(width) {
        let next = right_of(2 * j, width);
        let block = Block { j, next };
        let b = tables.block422::<N>(this, block, y);
        tables.luma.rows.put_chroma(b, j, u, v);
    }
}

// Lumas of a few pairs at the start of a row, ahead of their turn, in which they are written again. Where a row does not follow on the one before it,
// as in a window, the cache lines of its start are then waited for all at once, and not one by one.
// Writes among the first `width` bytes of `y`, and no other byte.
fn luma_ahead<const N: usize>(tables: &LumaTables, row: &[u8], y: &mut [u8])
    requires row_of { RowOf tables.now.rows.frame N row.now }
    requires luma_room { tables.now.rows.frame.width ≤ length y.old }
    ensures { Painted tables.now.rows.frame.width (λ k. get_or y.new k 0) y.old y.new }
{
    let width = tables.rows.frame.width as usize;
    if width <= AHEAD {
        return;
    }
    for x in (0..AHEAD).step_by(AHEAD_STEP) {
        tables.luma_pair::<N>(row, x, x + 1, y, 0);
    }
}

// Luma of a source row, and its 4:2:2 chroma.
// Writes the first `width` bytes of `y` and the first `width / 2`, rounded up, bytes of `u` and of `v`, and no other byte.
pub fn sharpen_row422<const N: usize>(
    tables: &FrameTables,
    this: &[u8],
    y: &mut [u8],
    u: &mut [u8],
    v: &mut [u8],
)
    requires { Lent422 tables.now.luma.rows.frame N this.now y.old u.old v.old }
    ensures luma_written { LumaWritten tables.now.luma.rows.frame N this.now y.old y.new }
    ensures chroma_written { ChromaWritten tables.now.luma.rows.frame (inputs422 tables.now.luma.rows.frame N this.now) u.old v.old u.new v.new }
{
    luma_ahead::<N>(&tables.luma, this, y);
    fours422::<N>(tables, this, y, u, v);
    rest422::<N>(tables, this, y, u, v);
}
