// A pair of pixels, two pixels to a sum: its sums, its lumas, and its chroma.
//
// What a byte adds to sums is made once a call (tables.rt). An entry of the left table is, for a byte of the left pixel of a pair, 2^44 times
// (3 * linear + 2) and what the byte adds to luma; of the right table, for a byte of the right pixel, 2^44 times linear and 2^21 times what it adds
// to luma. The sums of a pair, byte by byte, hold both lumas and the linear values in quarters; three times those of a pair and the pair below it
// hold them in sixteenths. Chroma of the corrected bytes is signed i32 weights, sums and a shift.
//
// Bounds: luma is below 2^21 before it is divided, so the two of a pair are below 2^42, and four pairs' below 2^44; 16 * 65,535 + 8 is below 2^20,
// so no sum reaches 2^64. No accepted matrix takes luma or chroma out of the range that the definition holds them in, so nothing is held here.
//
// The six tables of sums are one array, so that a byte's place in its pixel is an offset and one function serves all places. Chroma rows are lent one by
// one (band_planes says why).
#![tactic(auto)]

pub mod frame_tables; // what a frame's luma and chroma need, and that it is the frame's own
pub mod tables; // weights and tables

ghost use Rattle.std.specs.Prelude.{◌≡◌, ◌+◌, ◌*◌, ◌≤◌, ◌<◌, pos, get_or, length, set};
ghost use Rattle.definitions.specs.Pixel.{weigh};
ghost use Rattle.definitions.specs.Row.{pixels_of};
ghost use Rattle.pixel_pairs.specs.Weights.{Converts, ByteWeights};
ghost use Rattle.pixel_pairs.specs.Pixels.{first_three, Paired, Light, total, left_luma, right_luma};
ghost use Rattle.pixel_pairs.specs.Pixels.{sixteenths_of, quarters_of, corrected_by, Over, Linears, ColourAt, ColoursAt, cb_byte, cr_byte};
ghost use Rattle.pixel_pairs.specs.Rows.{lumas, inputs420, inputs422, RowOf, Rows420, Row422, InRow, put_pair};
ghost use Rattle.pixel_pairs.specs.Rows.{LumasPainted, Lumas422, LumaMore, ChromaMore, put_block420, put_block422, block_at};

use frame_tables::{FrameTables, LumaTables};
use tables::{Conversion, Weights};

// Weights are in units of 1 / 8,192, which is 13 bits.
const PRECISION: i32 = 13;

// 128 * 8,192, and half of 8,192 less 1: what cb and cr start from.
const CHROMA_BIAS: i32 = 1052671;

// The first three bytes of a pixel: its colour, in the order of its channels.
#[derive(Clone, Copy, Debug, PartialEq, Eq)]
pub struct Bytes {
    pub b0: u8,
    pub b1: u8,
    pub b2: u8,
}

// The colours of two blocks.
#[derive(Clone, Copy, Debug, PartialEq, Eq)]
pub struct Colours {
    pub first: Bytes,
    pub second: Bytes,
}

// For each byte of a colour the entries of a pair of pixels, added. This, `Bytes` and `Weights` stay three types: no function takes either for another,
// and one type over the kind of number would say no more than their names do. Nor are they arrays: each place has a table of its own, which a `map` over
// the places would have to be told beside them.
#[derive(Clone, Copy, Debug, PartialEq, Eq)]
pub struct Sums {
    pub e0: u64,
    pub e1: u64,
    pub e2: u64,
}

// Where chroma byte j comes from: pixel 2j, and `next`, its neighbour to the right.
#[derive(Clone, Copy, Debug, PartialEq, Eq)]
pub struct Block {
    pub j: usize,
    pub next: usize,
}

// Pixel x of a row. A part of three bytes would first be cut out of the row, and then be read byte by byte all the same.
fn at<const N: usize>(row: &[u8], x: usize) -> Bytes
    requires { x * N + 2 < length row.now }
    ensures { result ≡ first_three (pixels_of N row.now x) }
{
    let first = x * N;
    Bytes {
        b0: row[first],
        b1: row[first + 1],
        b2: row[first + 2],
    }
}

// The entries of a left and of a right byte at one place of their pixels.
fn entries(sums: &[u64; 1536], place: usize, left: u8, right: u8) -> u64
    requires place_bound { place ≤ 512 }
    requires light { Light sums.now }
    ensures { result ≡ get_or sums.now (place + left) 0 + get_or sums.now (768 + place + right) 0 }
{
    let l = place + left as usize;
    let r = 768 + place + right as usize;
    sums[l] + sums[r]
}

// The sums of pixels x and next of a row.
pub fn pair<const N: usize>(sums: &[u64; 1536], row: &[u8], x: usize, next: usize) -> Sums
    requires in_row { (x * N + 2 < length row.now) × (next * N + 2 < length row.now) }
    requires light { Light sums.now }
    ensures { Paired sums.now (pixels_of N row.now x) (pixels_of N row.now next) result }
{
    let a = at::<N>(row, x);
    let b = at::<N>(row, next);
    Sums {
        e0: entries(sums, 0, a.b0, b.b0),
        e1: entries(sums, 256, a.b1, b.b1),
        e2: entries(sums, 512, a.b2, b.b2),
    }
}

// Both lumas of a pair, into the luma row that begins at `start`: two luma rows are one lent slice, of which each contract says what it has after.
fn put_luma(y: &mut [u8], start: usize, x: usize, next: usize, s: Sums)
    requires in_row { (start + x < length y.old) × (start + next < length y.old) }
    requires total_fits { total s < 18446744073709551616 }
    ensures { y.new ≡ set (set y.old (start + x) (left_luma s)) (start + next) (right_luma s) }
{
    let both = s.e0 + s.e1 + s.e2;
    y[start + x] = (both / 8192 % 256) as u8;
    y[start + next] = (both / 17179869184 % 256) as u8;
}

// Three weighed bytes. The shift of a signed number rounds down.
fn weigh(w: Weights, b: Bytes) -> u8
    requires { ByteWeights w }
    ensures { pos result ≡ weigh w.first w.second w.third 128 b.b0 b.b1 b.b2 }
{
    ((b.b0 as i32 * w.first + b.b1 as i32 * w.second + b.b2 as i32 * w.third + CHROMA_BIAS)
        >> PRECISION) as u8
}

// The linear values of a pair over another: 9, 3, 3 and 1 sixteenths, and a half, rounded down.
pub fn sixteenths(a: Sums, b: Sums) -> Sums
    requires { Over a b }
    ensures { result ≡ sixteenths_of a b }
{
    Sums {
        e0: (3 * a.e0 + b.e0) / 281474976710656,
        e1: (3 * a.e1 + b.e1) / 281474976710656,
        e2: (3 * a.e2 + b.e2) / 281474976710656,
    }
}

// Of a pair alone: 3 and 1 quarters, and a half, rounded down.
fn quarters(a: Sums) -> Sums
    ensures { result ≡ quarters_of a }
{
    Sums {
        e0: a.e0 / 70368744177664,
        e1: a.e1 / 70368744177664,
        e2: a.e2 / 70368744177664,
    }
}

fn corrected(gamma: &[u8; 65536], linear: u64) -> u8
    requires { linear < 65536 }
    ensures { result ≡ get_or gamma.now linear 0 }
{
    gamma[linear as usize]
}

// The colour of linear values.
pub fn mixed(gamma: &[u8; 65536], linear: Sums) -> Bytes
    requires { Linears linear }
    ensures { result ≡ first_three (corrected_by gamma.now linear) }
{
    Bytes {
        b0: corrected(gamma, linear.e0),
        b1: corrected(gamma, linear.e1),
        b2: corrected(gamma, linear.e2),
    }
}

impl Conversion {
    // The chroma of a colour, at place j of both chroma rows. No accepted matrix takes it out of the range that the definition holds it in.
    pub fn put_chroma(&self, b: Bytes, j: usize, u: &mut [u8], v: &mut [u8])
        requires converts { Converts self.now }
        requires room { (j < length u.old) × (j < length v.old) }
        ensures chroma_more { ChromaMore self.now.frame (λ input. ColourAt input j b) j (j + 1) u.old v.old u.new v.new }
        ensures u_after { u.new ≡ set u.old j (cb_byte self.now.frame b) }
        ensures v_after { v.new ≡ set v.old j (cr_byte self.now.frame b) }
    {
        u[j] = weigh(self.cb, b);
        v[j] = weigh(self.cr, b);
    }

    // Of two colours, at place j and the next.
    pub fn put_chromas(&self, c: Colours, j: usize, u: &mut [u8], v: &mut [u8])
        requires converts { Converts self.now }
        requires room { (j + 1 < length u.old) × (j + 1 < length v.old) }
        ensures chroma_more { ChromaMore self.now.frame (λ input. ColoursAt input j c) j (j + 2) u.old v.old u.new v.new }
        ensures u_after { u.new ≡ set (set u.old j (cb_byte self.now.frame c.first)) (j + 1) (cb_byte self.now.frame c.second) }
        ensures v_after { v.new ≡ set (set v.old j (cr_byte self.now.frame c.first)) (j + 1) (cr_byte self.now.frame c.second) }
    {
        self.put_chroma(c.first, j, u, v);
        self.put_chroma(c.second, j + 1, u, v);
    }
}

impl LumaTables<'_> {
    // Pixels x and next of a row: their lumas, into the luma row that begins at `start`, and their sums.
    // Two places of a row and one of the luma plane: a struct of x and next would be made for each call and taken apart in `pair` and `put_luma`.
    pub fn luma_pair<const N: usize>(
        &self,
        row: &[u8],
        x: usize,
        next: usize,
        y: &mut [u8],
        start: usize,
    ) -> Sums
        requires row_of { RowOf self.now.rows.frame N row.now }
        requires in_row { (x < self.now.rows.frame.width) × (next < self.now.rows.frame.width) }
        requires luma_room { start + self.now.rows.frame.width ≤ length y.old }
        ensures paired { Paired self.now.sums.now (pixels_of N row.now x) (pixels_of N row.now next) result }
        ensures y_after { y.new ≡ put_pair start x next (lumas self.now.rows.frame N row.now) y.old }
    {
        let s = pair::<N>(self.sums, row, x, next);
        put_luma(y, start, x, next, s);
        s
    }
}

impl FrameTables<'_, '_> {
    // The colour of 4:2:0 chroma, and the lumas of its pixels, in two rows. An odd last pixel is its own neighbour to the right: 9 + 3 is 12, and
    // 3 + 1 is 4.
    pub fn block420<const N: usize>(
        &self,
        this: &[u8],
        below: &[u8],
        block: Block,
        y: &mut [u8],
    ) -> Bytes
        requires rows420 { Rows420 self.now.luma.rows.frame N this.now below.now y.old }
        requires in_row { InRow self.now.luma.rows.frame block }
        ensures colour_at { ColourAt (inputs420 self.now.luma.rows.frame N this.now below.now) block.j result }
        ensures luma_more { LumaMore (LumasPainted self.now.luma.rows.frame N this.now below.now) self.now.luma.rows.frame block.j (block.j + 1)
            y.old y.new }
        ensures y_after { y.new ≡ put_block420 self.now.luma.rows.frame N this.now below.now block y.old }
    {
        let x = 2 * block.j;
        let a = self.luma.luma_pair::<N>(this, x, block.next, y, 0);
        let b = self.luma.luma_pair::<N>(
            below,
            x,
            block.next,
            y,
            self.luma.rows.frame.y_stride as usize,
        );
        mixed(self.gamma, sixteenths(a, b))
    }

    // The colour of 4:2:2 chroma, and the lumas of its pixels. An odd last pixel's own bytes go through no table.
    pub fn block422<const N: usize>(&self, this: &[u8], block: Block, y: &mut [u8]) -> Bytes
        requires row422 { Row422 self.now.luma.rows.frame N this.now y.old }
        requires in_row { InRow self.now.luma.rows.frame block }
        ensures colour_at { ColourAt (inputs422 self.now.luma.rows.frame N this.now) block.j result }
        ensures luma_more { LumaMore (Lumas422 self.now.luma.rows.frame N this.now) self.now.luma.rows.frame block.j (block.j + 1) y.old y.new }
        ensures y_after { y.new ≡ put_block422 self.now.luma.rows.frame N this.now block y.old }
    {
        let x = 2 * block.j;
        let next = block.next;
        let a = self.luma.luma_pair::<N>(this, x, next, y, 0);
        if next == x {
            at::<N>(this, x)
        } else {
            mixed(self.gamma, quarters(a))
        }
    }

    // Two blocks of 4:2:0, whose pixels are all there.
    pub fn four420<const N: usize>(
        &self,
        this: &[u8],
        below: &[u8],
        j: usize,
        y: &mut [u8],
    ) -> Colours
        requires rows420 { Rows420 self.now.luma.rows.frame N this.now below.now y.old }
        requires inside { 2 * j + 3 < self.now.luma.rows.frame.width }
        ensures colours_at { ColoursAt (inputs420 self.now.luma.rows.frame N this.now below.now) j result }
        ensures luma_more { LumaMore (LumasPainted self.now.luma.rows.frame N this.now below.now) self.now.luma.rows.frame j (j + 2) y.old y.new }
        ensures y_after { y.new ≡ put_block420 self.now.luma.rows.frame N this.now below.now (block_at (j + 1))
            (put_block420 self.now.luma.rows.frame N this.now below.now (block_at j) y.old) }
    {
        let k = j + 1;
        let here = Block { j, next: 2 * j + 1 };
        let there = Block {
            j: k,
            next: 2 * k + 1,
        };
        let first = self.block420::<N>(this, below, here, y);
        let second = self.block420::<N>(this, below, there, y);
        Colours { first, second }
    }

    // Two blocks of 4:2:2. Both pairs are read, and both colours looked up, before a luma is written: a tenth faster.
    pub fn four422<const N: usize>(&self, this: &[u8], j: usize, y: &mut [u8]) -> Colours
        requires row422 { Row422 self.now.luma.rows.frame N this.now y.old }
        requires inside { 2 * j + 3 < self.now.luma.rows.frame.width }
        ensures colours_at { ColoursAt (inputs422 self.now.luma.rows.frame N this.now) j result }
        ensures luma_more { LumaMore (Lumas422 self.now.luma.rows.frame N this.now) self.now.luma.rows.frame j (j + 2) y.old y.new }
        ensures y_after { y.new ≡ put_block422 self.now.luma.rows.frame N this.now (block_at (j + 1))
            (put_block422 self.now.luma.rows.frame N this.now (block_at j) y.old) }
    {
        let x = 2 * j;
        let right = x + 1;
        let z = 2 * (j + 1);
        let last = z + 1;
        let a = pair::<N>(self.luma.sums, this, x, right);
        let b = pair::<N>(self.luma.sums, this, z, last);
        let first = mixed(self.gamma, quarters(a));
        let second = mixed(self.gamma, quarters(b));
        put_luma(y, 0, x, right, a);
        put_luma(y, 0, z, last, b);
        Colours { first, second }
    }
}
