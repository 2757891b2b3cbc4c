// Band calls: a frame converted in bands of rows, between which its state goes in by value and comes back.
// Y, U and V come as three slices, as C lends them: each contract speaks of y, u and v one by one, so a struct of the three would be made for a call
// and taken apart in it.
#![tactic(auto)]

ghost use Rattle.std.specs.Prelude.{◌≡◌, ◌+◌, ◌*◌, ◌-◌, ◌/◌, ◌%◌, ◌≤◌, length, OnOk};
ghost use Rattle.yuv_error.specs.Numbers.{numbers_of};
ghost use Rattle.yuv_error.specs.Rules.{first_numbers};
ghost use Rattle.definitions.specs.Painted.{Painted};
ghost use Rattle.definitions.specs.Row.{pixels_of};
ghost use Rattle.definitions.specs.Bands.{own_rows};
ghost use Rattle.yuv_error.specs.Known.{Sized, Given, PlanesLent};
ghost use Rattle.band_calls.specs.BandCall.{OpenPost, band_of, row_rules, carried_rules, band_rules, is_carried, carried_bytes};
ghost use Rattle.band_calls.specs.BandCall.{band_call, BandPost};

use definitions::{Band, FrameDescription};
use yuv_error::{Lengths, MismatchedSize, YuvError};
use yuv_support::YuvChromaSubsampling;

// A frame that is being converted: what its opening fixed, and how many of its rows are done.
#[derive(Clone, Copy, Debug, PartialEq)]
pub struct FrameState {
    pub frame: FrameDescription,
    pub done: u32,
}

// What an opening or a band call hands back. By RULES 8.1 and 8.5 that is the state in any case, refused or not, and a state by value with methods on it
// is a form that the project names (docs/PROMISES.md, B2 and F6): so this is no `Result`.
#[derive(Clone, Copy, Debug, PartialEq)]
pub struct FrameAnswer {
    pub state: FrameState,
    pub answer: Result<(), YuvError>,
}

// Refusal 5.
fn check_rows(height: u32, done: u32, rows: u32) -> Result<(), YuvError>
    ensures numbers { numbers_of result ≡ first_numbers (row_rules height done rows) }
    ensures inside { OnOk result ((1 ≤ rows) × (done + rows ≤ height)) }
{
    if rows == 0 || height.saturating_sub(done) < rows {
        return Err(YuvError::BandRowsMismatch);
    }
    Ok(())
}

// Refusal 13.
fn check_carried(width: u32, carried: usize) -> Result<(), YuvError>
    ensures numbers { numbers_of result ≡ first_numbers (carried_rules width carried) }
    ensures long { OnOk result (3 * width ≤ carried) }
{
    let least = 3 * width as usize;
    if carried < least {
        return Err(YuvError::CarriedRowSizeMismatch(MismatchedSize {
            expected: least,
            received: carried,
        }));
    }
    Ok(())
}

// Refusals 2, 3, 4, 14, 5, then 6 to 12, then 13.
fn check_band(
    state: FrameState,
    rows: u32,
    stride: u32,
    lent: Lengths,
    carried: usize,
) -> Result<(), YuvError>
    ensures numbers { numbers_of result ≡ first_numbers (band_rules state rows stride lent carried) }
    ensures sized { OnOk result (Sized state.frame) }
    ensures given { OnOk result (Given (band_of state rows stride) lent.source) }
    ensures planes { OnOk result (PlanesLent state.frame lent.y lent.u lent.v) }
    ensures long { OnOk result (3 * state.frame.width ≤ carried) }
{
    yuv_error::check_opening(state.frame)?;
    check_rows(state.frame.height, state.done, rows)?;
    yuv_error::check_lent(state.frame, rows as usize, stride, lent)?;
    check_carried(state.frame.width, carried)
}

// Whether the last of `end` rows is carried: in 4:2:0 an even-numbered row other than the frame's last.
fn is_carried(sampling: YuvChromaSubsampling, height: u32, end: u32) -> bool
    requires { 1 ≤ end }
    ensures { result ≡ is_carried sampling height end }
{
    match sampling {
        YuvChromaSubsampling::Yuv420 => (end - 1) % 2 == 0 && end != height,
        YuvChromaSubsampling::Yuv422 => false,
    }
}

// The first three bytes of each of a row's `width` pixels, one pixel after another. By number: `chunks_exact` of both slices would name the same three bytes
// of a pixel by number still, once both were cut to `width` pixels.
fn carry_row(row: &[u8], count: usize, width: usize, carried: &mut [u8])
    requires le_count { (3 ≤ count) × (width * count ≤ length row.now) }
    requires width_in_bounds { 3 * width ≤ length carried.old }
    ensures { Painted (3 * width) (λ q. pixels_of count row.now (q / 3) (q % 3)) carried.old carried.new }
{
    for x in 0..width {
        let from = x * count;
        let to = x * 3;
        carried[to] = row[from];
        carried[to + 1] = row[from + 1];
        carried[to + 2] = row[from + 2];
    }
}

// Carries the last row of a band, where it is to be carried.
fn carry_band(band: Band, source: &[u8], carried: &mut [u8])
    requires sized { Sized band.frame }
    requires given { Given band (length source.now) }
    requires width_in_bounds { 3 * band.frame.width ≤ length carried.old }
    ensures { Painted (carried_bytes band.frame (band.done + band.rows))
        (λ q. own_rows band source.now (band.done + band.rows - 1) (q / 3) (q % 3)) carried.old carried.new }
{
    let frame = band.frame;
    if is_carried(frame.settings.sampling, frame.height, band.done + band.rows) {
        let count = frame.settings.channels.get_channels_count();
        let width = frame.width as usize;
        let at = definitions::row_start(frame, band.rows as usize - 1, band.stride as usize);
        carry_row(&source[at..at + width * count], count, width, carried);
    }
}

impl FrameState {
    // Opens a frame: a state with no row done. Refuses a size (2, 3), a matrix (4) or a window (14).
    pub fn open(frame: FrameDescription) -> FrameAnswer
        ensures { OpenPost frame result }
    {
        let answer = yuv_error::check_opening(frame);
        FrameAnswer {
            state: FrameState { frame, done: 0 },
            answer,
        }
    }

    // Converts the next `rows` rows of the frame, or answers one numbered refusal (2 to 14), writes no byte and hands the state back as
    // it is. The planes and the carried row are those that the band before left.
    pub fn band(
        self,
        rows: u32,
        source: &[u8],
        stride: u32,
        y: &mut [u8],
        u: &mut [u8],
        v: &mut [u8],
        carried: &mut [u8],
    ) -> FrameAnswer
        ensures { BandPost (band_call self rows stride source.now y.old u.old v.old carried.old
            result y.new u.new v.new carried.new) }
    {
        let lent = Lengths {
            source: source.len(),
            y: y.len(),
            u: u.len(),
            v: v.len(),
        };
        match check_band(self, rows, stride, lent, carried.len()) {
            Err(e) => FrameAnswer {
                state: self,
                answer: Err(e),
            },
            Ok(()) => {
                let band = Band {
                    frame: self.frame,
                    done: self.done,
                    rows,
                    stride,
                };
                // the carried row is read before this band's last row takes its place
                band_planes::sharpen_band(band, source, carried, y, u, v);
                carry_band(band, source, carried);
                FrameAnswer {
                    state: FrameState {
                        frame: self.frame,
                        done: self.done + rows,
                    },
                    answer: Ok(()),
                }
            }
        }
    }
}
