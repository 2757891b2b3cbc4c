// One record of a shift file, from planes with strides, as the converter leaves them (RULES 11.6): a frame call, this and `shift_writer` make a file
// without code of the user's. Planes are of 4:2:0, or of the sampling that is recorded; the output is measured before a byte is written.
#![tactic(auto)]

mod planes; // a frame and its planes that were checked
pub mod padded; // rows with their padding: of a plane, of the three planes of a shape

ghost use Rattle.std.specs.Prelude.{◌≡◌};
ghost use Rattle.shift_record.specs.Record.{record_form, frame_sampling, record_shape, frame_allowed, RecordPost};

use planes::FramePlanes;
use shift_file::{SettingCodes, ShiftForm};
use shift_writer::NotWritten;
use yuv_error::PlaneShape;
use yuv_support::YuvChromaSubsampling;

// What a record says of its frame, and the strides of the planes that it is made of. A record of the form without settings has `None` for them.
#[derive(Clone, Copy, Debug, PartialEq, Eq)]
pub struct RecordFrame {
    pub crossing: u32,
    pub width: u32,
    pub height: u32,
    pub settings: Option<SettingCodes>,
    pub y_stride: u32,
    pub u_stride: u32,
    pub v_stride: u32,
}

impl RecordFrame {
    // The form of the record.
    pub fn form(self) -> ShiftForm
        ensures { result ≡ record_form self }
    {
        match self.settings {
            None => ShiftForm::WithoutSettings,
            Some(_) => ShiftForm::WithSettings,
        }
    }

    // The sampling of the planes: 4:2:0 where no settings are recorded.
    fn sampling(self) -> YuvChromaSubsampling
        ensures { result ≡ frame_sampling self }
    {
        self.settings.map_or(
            YuvChromaSubsampling::Yuv420,
            |codes| setting_codes::sampling_of(codes.sampling),
        )
    }

    // Whether the sides are allowed, and the settings where there are some.
    fn is_allowed(self) -> bool
        ensures { result ≡ frame_allowed self }
    {
        shift_file::is_side(self.width as usize)
            && shift_file::is_side(self.height as usize)
            && self.settings.is_none_or(SettingCodes::are_allowed)
    }
}

// What its planes are held against, field by field, as of another frame in `y4m_picture`: a trait over the two would have a method for each of the six.
impl From<RecordFrame> for PlaneShape {
    ghost use Rattle.std.specs.Prelude.{◌≡◌};
    ghost use Rattle.shift_record.specs.Record.{record_shape};

    ghost from_gives = { λ frame shape. shape ≡ record_shape frame };

    fn from(frame: RecordFrame) -> PlaneShape {
        PlaneShape {
            width: frame.width,
            height: frame.height,
            sampling: frame.sampling(),
            y_stride: frame.y_stride,
            u_stride: frame.u_stride,
            v_stride: frame.v_stride,
        }
    }
}

// Writes the record of these planes at the front of the output; or answers 15 where a side is not 1 to 16,384 or a setting has no such code, 8 to 12
// where a plane is not of whole rows, 16 where the output is shorter than the record, and writes nothing.
pub fn write_record(
    frame: RecordFrame,
    y: &[u8],
    u: &[u8],
    v: &[u8],
    output: &mut [u8],
) -> Result<usize, NotWritten>
    ensures { RecordPost frame y.now u.now v.now output.old result output.new }
{
    let planes = FramePlanes::open(frame, y, u, v)?;
    let size = planes.record_size();
    if output.len() < size {
        return Err(NotWritten::TooShort(size));
    }
    planes.put_record(output);
    Ok(size)
}
