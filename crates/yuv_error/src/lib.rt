// The refusals: the errors and checks of the Rust's yuv_error.rs, with those that the rules add beside them (RULES 7.1).
#![tactic(auto)]

ghost use Rattle.std.specs.Prelude.{◌≡◌, ◌+◌, ◌≤◌, OnOk, IfErr, IsOk, ◌↔◌, true, false, T};
ghost use Rattle.yuv_support.specs.Matrix.{accepted};
ghost use Rattle.yuv_error.specs.Numbers.{numbers_of};
ghost use Rattle.yuv_error.specs.Checks.{least_mismatch, stride_mismatch};
ghost use Rattle.yuv_error.specs.Rules.{first_numbers, large_rules, size_rules, matrix_rules, least_of, whole_of, too_short, too_narrow};
ghost use Rattle.yuv_error.specs.Rules.{source_rules, plane_rules, whole_rules, planes_rules, buffer_rules};
ghost use Rattle.yuv_error.specs.Shape.{luma_lent, chroma_lent, shape_rules};
ghost use Rattle.yuv_error.specs.Lent.{source_of, window_rules, opening_rules, lent_rules};
ghost use Rattle.yuv_error.specs.Known.{Sized, WholeRows, PlanesWhole, PlanesLent};

use definitions::FrameDescription;
use std::error::Error;
use std::fmt;
use yuv_support::{YuvChromaSubsampling, YuvStandardMatrix};

// The most pixels a side (RULES 7.3).
const MAX_SIDE: u32 = 16384;

// Shows size mismatching.
#[derive(Clone, Copy, Debug, PartialEq, Eq, Hash)]
pub struct MismatchedSize {
    pub expected: usize,
    pub received: usize,
}

// The refusals, by number. Where the Rust has an error for one, it has the Rust's name;
// its ChromaPlaneMinimumSizeMismatch is one for each chroma plane here.
#[derive(Clone, Copy, Debug, PartialEq, Eq, Hash)]
pub enum YuvError {
    MalformedRequest,
    ZeroBaseSize,
    SizeTooLarge,
    MatrixNotAccepted,
    BandRowsMismatch,
    DestinationSizeMismatch(MismatchedSize),
    MinimumStrideSizeMismatch(MismatchedSize),
    LumaPlaneMinimumSizeMismatch(MismatchedSize),
    LumaPlaneSizeMismatch(MismatchedSize),
    UPlaneMinimumSizeMismatch(MismatchedSize),
    VPlaneMinimumSizeMismatch(MismatchedSize),
    WholeRowsMismatch(MismatchedSize),
    CarriedRowSizeMismatch(MismatchedSize),
    WindowOutsideSource,
    MalformedShiftFile,
    OutputTooShort,
    SummaryMismatch,
    PartsMismatch,
    MalformedY4m,
    SettingsRecorded,
    CameraMismatch,
    BandStillWaiting,
    CameraInUse,
}

impl fmt::Display for MismatchedSize {
    ghost use Rattle.std.specs.Prelude.{Some};
    ghost use Rattle.yuv_error.specs.Texts.{size_text};

    ghost output = { λ size. Some (size_text size) };

    fn fmt<W: fmt::Write>(&self, f: &mut fmt::Formatter<W>) -> fmt::Result {
        write!(f, "expected {}, received {}", self.expected, self.received)
    }
}

impl fmt::Display for YuvError {
    ghost use Rattle.std.specs.Prelude.{Some};
    ghost use Rattle.yuv_error.specs.Texts.{error_text};

    ghost output = { λ error. Some (error_text error) };

    fn fmt<W: fmt::Write>(&self, f: &mut fmt::Formatter<W>) -> fmt::Result {
        match self {
            YuvError::MalformedRequest => write!(
                f,
                "the request, the count of numbers or a code is malformed"
            ),
            YuvError::ZeroBaseSize => write!(f, "the size has no pixel"),
            YuvError::SizeTooLarge => write!(f, "a side has too many pixels"),
            YuvError::MatrixNotAccepted => write!(f, "the matrix is not accepted"),
            YuvError::BandRowsMismatch => write!(f, "the band's rows do not follow"),
            YuvError::DestinationSizeMismatch(size) => write!(f, "the source is too short: {size}"),
            YuvError::MinimumStrideSizeMismatch(size) => write!(
                f,
                "the source's stride is below its row: {size}"
            ),
            YuvError::LumaPlaneMinimumSizeMismatch(size) => write!(
                f,
                "the Y plane's stride is below its row: {size}"
            ),
            YuvError::LumaPlaneSizeMismatch(size) => write!(f, "the Y plane is too short: {size}"),
            YuvError::UPlaneMinimumSizeMismatch(size) => write!(
                f,
                "the U plane is too narrow or too short: {size}"
            ),
            YuvError::VPlaneMinimumSizeMismatch(size) => write!(
                f,
                "the V plane is too narrow or too short: {size}"
            ),
            YuvError::WholeRowsMismatch(size) => write!(f, "the rows are not whole: {size}"),
            YuvError::CarriedRowSizeMismatch(size) => write!(
                f,
                "the carried row has another length: {size}"
            ),
            YuvError::WindowOutsideSource => write!(f, "the window reaches past its source"),
            YuvError::MalformedShiftFile => write!(
                f,
                "the shift file, or what a record would hold, is malformed"
            ),
            YuvError::OutputTooShort => write!(f, "the output is too short"),
            YuvError::SummaryMismatch => write!(f, "the summary is not that of the file"),
            YuvError::PartsMismatch => write!(f, "the frames or parts are not allowed together"),
            YuvError::MalformedY4m => write!(
                f,
                "the Y4M file, or what it would hold, is malformed"
            ),
            YuvError::SettingsRecorded => write!(f, "a record would lose its settings"),
            YuvError::CameraMismatch => write!(
                f,
                "there is no such camera, or it has no open frame"
            ),
            YuvError::BandStillWaiting => write!(f, "a band of this camera still waits"),
            YuvError::CameraInUse => write!(f, "the camera already has an open frame"),
        }
    }
}

impl Error for YuvError {}

// A lent buffer: `rows` rows of `row` bytes each, a row every `stride` bytes, `len` bytes in all. No product of its numbers of 32 bits leaves 64.
#[derive(Clone, Copy, Debug, PartialEq, Eq, Hash)]
pub struct LentBuffer {
    pub row: u32,
    pub rows: u32,
    pub stride: u32,
    pub len: usize,
}

// The lengths of what a call is lent.
#[derive(Clone, Copy, Debug, PartialEq, Eq, Hash)]
pub struct Lengths {
    pub source: usize,
    pub y: usize,
    pub u: usize,
    pub v: usize,
}

impl LentBuffer {
    // The least that holds the rows: the last one may lack its padding.
    fn least_size(self) -> usize
        ensures { result ≡ least_of self }
    {
        self.stride as usize * self.rows.saturating_sub(1) as usize + self.row as usize
    }

    // All rows whole.
    fn whole_size(self) -> usize
        ensures { result ≡ whole_of self }
    {
        self.stride as usize * self.rows as usize
    }

    // Refuses a buffer that is too short for its rows, by the refusal that the caller names.
    fn check_long<S: FnOnce(MismatchedSize) -> YuvError>(self, short: S) -> Result<(), YuvError>
        requires { (size : MismatchedSize) → S.pre short size }
        ensures long { OnOk result (too_short self ≡ false) }
        ensures short { IfErr result (λ e. (too_short self ≡ true) × S.post short (least_mismatch self) e) }
    {
        let least = self.least_size();
        if self.len < least {
            return Err(short(MismatchedSize {
                expected: least,
                received: self.len,
            }));
        }
        Ok(())
    }

    // Refuses a plane whose stride is below its row, by the refusal that the caller names.
    fn check_wide<N: FnOnce(MismatchedSize) -> YuvError>(self, narrow: N) -> Result<(), YuvError>
        requires { (size : MismatchedSize) → N.pre narrow size }
        ensures wide { OnOk result (too_narrow self ≡ false) }
        ensures narrow { IfErr result (λ e. (too_narrow self ≡ true) × N.post narrow (stride_mismatch self) e) }
    {
        if self.stride < self.row {
            return Err(narrow(MismatchedSize {
                expected: self.row as usize * self.rows as usize,
                received: self.whole_size(),
            }));
        }
        Ok(())
    }

    // The Rust's check_rgba_destination.
    fn check_rgba_source(self) -> Result<(), YuvError>
        ensures numbers { numbers_of result ≡ first_numbers (source_rules self) }
        ensures wide { OnOk result (self.row ≤ self.stride) }
    {
        self.check_long(YuvError::DestinationSizeMismatch)?;
        if self.stride < self.row {
            return Err(YuvError::MinimumStrideSizeMismatch(MismatchedSize {
                expected: self.row as usize,
                received: self.stride as usize,
            }));
        }
        Ok(())
    }

    // The planes' checks, one for each plane, as the rules list them: what is alike in them is `check_wide` and `check_long`. One check that is given its
    // refusals would say its answer by cases of a closure's result, where each of these says it by the rules of its plane.
    fn check_y8_channel(self) -> Result<(), YuvError>
        ensures numbers { numbers_of result ≡ first_numbers (plane_rules 8 9 self) }
        ensures wide { OnOk result (self.row ≤ self.stride) }
    {
        self.check_wide(YuvError::LumaPlaneMinimumSizeMismatch)?;
        self.check_long(YuvError::LumaPlaneSizeMismatch)
    }

    fn check_u_channel(self) -> Result<(), YuvError>
        ensures numbers { numbers_of result ≡ first_numbers (plane_rules 10 10 self) }
        ensures wide { OnOk result (self.row ≤ self.stride) }
    {
        self.check_wide(YuvError::UPlaneMinimumSizeMismatch)?;
        self.check_long(YuvError::UPlaneMinimumSizeMismatch)
    }

    fn check_v_channel(self) -> Result<(), YuvError>
        ensures numbers { numbers_of result ≡ first_numbers (plane_rules 11 11 self) }
        ensures wide { OnOk result (self.row ≤ self.stride) }
    {
        self.check_wide(YuvError::VPlaneMinimumSizeMismatch)?;
        self.check_long(YuvError::VPlaneMinimumSizeMismatch)
    }

    // The Rust has no such check: it may skip rows, take the wrong last row or panic where this one refuses.
    fn check_whole_rows(self) -> Result<(), YuvError>
        ensures numbers { numbers_of result ≡ first_numbers (whole_rules self) }
        ensures whole { OnOk result (self.len ≡ whole_of self) }
    {
        let whole = self.whole_size();
        if self.len != whole {
            return Err(YuvError::WholeRowsMismatch(MismatchedSize {
                expected: whole,
                received: self.len,
            }));
        }
        Ok(())
    }
}

// Refusal 3.
fn check_large(width: u32, height: u32) -> Result<(), YuvError>
    ensures numbers { numbers_of result ≡ first_numbers (large_rules width height) }
    ensures small { OnOk result ((width ≤ 16384) × (height ≤ 16384)) }
{
    if width > MAX_SIDE || height > MAX_SIDE {
        return Err(YuvError::SizeTooLarge);
    }
    Ok(())
}

// Refuses a side of 0 (2) and one above 16,384 (3).
pub fn check_size(width: u32, height: u32) -> Result<(), YuvError>
    ensures numbers { numbers_of result ≡ first_numbers (size_rules width height) }
    ensures small { OnOk result ((1 ≤ width) × (width ≤ 16384) × (1 ≤ height) × (height ≤ 16384)) }
{
    if width == 0 || height == 0 {
        return Err(YuvError::ZeroBaseSize);
    }
    check_large(width, height)
}

pub fn check_matrix(matrix: YuvStandardMatrix) -> Result<(), YuvError>
    ensures numbers { numbers_of result ≡ first_numbers (matrix_rules matrix) }
    ensures accepted { IsOk result ↔ T (accepted matrix) }
{
    if matrix.is_accepted() {
        Ok(())
    } else {
        Err(YuvError::MatrixNotAccepted)
    }
}

// Where so many columns or rows end; the sum of two u32 needs 33 bits. A `checked_add` would answer an `Option`, though 64 bits hold every such sum.
fn end_of(start: u32, size: u32) -> u64
    ensures { result ≡ start + size }
{
    start as u64 + size as u64
}

// Refusal 14.
fn check_window(frame: FrameDescription) -> Result<(), YuvError>
    ensures numbers { numbers_of result ≡ first_numbers (window_rules frame) }
    ensures inside { OnOk result ((frame.window.left + frame.width ≤ frame.window.source_width) × (frame.window.top + frame.height ≤ frame.window.source_height)) }
{
    let right = end_of(frame.window.left, frame.width);
    let bottom = end_of(frame.window.top, frame.height);
    if right > frame.window.source_width as u64 || bottom > frame.window.source_height as u64 {
        return Err(YuvError::WindowOutsideSource);
    }
    Ok(())
}

// Refuses a side of 0 (2), a side above 16,384, the source's too (3), a matrix that is not accepted (4), a window that reaches past
// the source (14).
pub fn check_opening(frame: FrameDescription) -> Result<(), YuvError>
    ensures numbers { numbers_of result ≡ first_numbers (opening_rules frame) }
    ensures sized { OnOk result (Sized frame) }
{
    check_size(frame.width, frame.height)?;
    check_large(frame.window.source_width, frame.window.source_height)?;
    check_matrix(frame.settings.matrix)?;
    check_window(frame)
}

// Refuses a source (6, 7), a luma plane (8, 9), a chroma plane (10, 11) too short or too narrow for its rows, then one whose
// rows are not whole (12).
fn check_buffers(
    source: LentBuffer,
    y: LentBuffer,
    u: LentBuffer,
    v: LentBuffer,
) -> Result<(), YuvError>
    ensures numbers { numbers_of result ≡ first_numbers (buffer_rules source y u v) }
    ensures whole { OnOk result (WholeRows source × WholeRows y × WholeRows u × WholeRows v) }
{
    source.check_rgba_source()?;
    y.check_y8_channel()?;
    u.check_u_channel()?;
    v.check_v_channel()?;
    source.check_whole_rows()?;
    y.check_whole_rows()?;
    u.check_whole_rows()?;
    v.check_whole_rows()
}

// Refusals 8 to 12, of planes that are read and not written.
pub fn check_planes(y: LentBuffer, u: LentBuffer, v: LentBuffer) -> Result<(), YuvError>
    ensures numbers { numbers_of result ≡ first_numbers (planes_rules y u v) }
    ensures whole { OnOk result (WholeRows y × WholeRows u × WholeRows v) }
{
    y.check_y8_channel()?;
    u.check_u_channel()?;
    v.check_v_channel()?;
    y.check_whole_rows()?;
    u.check_whole_rows()?;
    v.check_whole_rows()
}

// What the lengths of a frame's planes are held against: sides, sampling and strides.
#[derive(Clone, Copy, Debug, PartialEq, Eq, Hash)]
pub struct PlaneShape {
    pub width: u32,
    pub height: u32,
    pub sampling: YuvChromaSubsampling,
    pub y_stride: u32,
    pub u_stride: u32,
    pub v_stride: u32,
}

impl From<FrameDescription> for PlaneShape {
    ghost use Rattle.std.specs.Prelude.{◌≡◌};
    ghost use Rattle.yuv_error.specs.Lent.{shape_of};

    ghost from_gives = { λ frame shape. shape ≡ shape_of frame };

    fn from(frame: FrameDescription) -> PlaneShape {
        PlaneShape {
            width: frame.width,
            height: frame.height,
            sampling: frame.settings.sampling,
            y_stride: frame.y_stride,
            u_stride: frame.u_stride,
            v_stride: frame.v_stride,
        }
    }
}

impl PlaneShape {
    // A luma plane of so many bytes.
    fn luma(self, len: usize) -> LentBuffer
        ensures { result ≡ luma_lent self len }
    {
        LentBuffer {
            row: self.width,
            rows: self.height,
            stride: self.y_stride,
            len,
        }
    }

    // A chroma plane with this stride, of so many bytes.
    fn chroma(self, stride: u32, len: usize) -> LentBuffer
        ensures { result ≡ chroma_lent self stride len }
    {
        LentBuffer {
            row: yuv_support::chroma_width(self.width as usize) as u32,
            rows: self.sampling.chroma_height(self.height as usize) as u32,
            stride,
            len,
        }
    }

    // Refusals 8 to 12, of planes of these lengths.
    pub fn check(self, y: usize, u: usize, v: usize) -> Result<(), YuvError>
        ensures numbers { numbers_of result ≡ first_numbers (shape_rules self y u v) }
        ensures whole { OnOk result (PlanesWhole self y u v) }
    {
        check_planes(
            self.luma(y),
            self.chroma(self.u_stride, u),
            self.chroma(self.v_stride, v),
        )
    }
}

// Refusals 6 to 12, for a source of `rows` rows.
pub fn check_lent(
    frame: FrameDescription,
    rows: usize,
    stride: u32,
    lent: Lengths,
) -> Result<(), YuvError>
    requires sized { Sized frame }
    requires le_rows { (1 ≤ rows) × (rows ≤ 16384) }
    ensures numbers { numbers_of result ≡ first_numbers (lent_rules frame rows stride lent) }
    ensures whole { OnOk result (WholeRows (source_of frame rows stride lent.source) × PlanesLent frame lent.y lent.u lent.v) }
{
    let row = frame.window.source_width * frame.settings.channels.get_channels_count() as u32;
    let shape = PlaneShape::from(frame);
    check_buffers(
        LentBuffer {
            row,
            rows: rows as u32,
            stride,
            len: lent.source,
        },
        shape.luma(lent.y),
        shape.chroma(shape.u_stride, lent.u),
        shape.chroma(shape.v_stride, lent.v),
    )
}
