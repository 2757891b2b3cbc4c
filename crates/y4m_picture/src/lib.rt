// One picture of a Y4M file from planes with strides, as the converter leaves them (RULES 14.7): frame calls and this make a file picture by picture,
// after the file of no picture that `y4m_writer` makes. Lengths are checked, and the output is measured, before a byte is written.
#![tactic(auto)]

mod planes; // planes that were checked

ghost use Rattle.std.specs.Prelude.{◌≡◌};
ghost use Rattle.y4m_writer.specs.Pictures.{sampling_of};
ghost use Rattle.y4m_picture.specs.Picture.{picture_shape, planes_allowed, picture_allowed, PicturePost};
ghost use Rattle.y4m_picture.specs.Known.{IsFrame};

use planes::PicturePlanes;
use shift_writer::NotWritten;
use yuv_error::PlaneShape;
use yuv_support::YuvChromaSubsampling;

// The bytes of the line FRAME, its newline counted.
const FRAME_LINE: usize = 6;

// Sides, the sampling by its code (0: 4:2:0, 1: 4:2:2), and the strides of the planes.
// A code and no YuvChromaSubsampling: a caller's own, which need not be allowed, comes in this type too and is then refused.
#[derive(Clone, Copy, Debug, PartialEq, Eq)]
pub struct PictureFrame {
    pub width: u32,
    pub height: u32,
    pub sampling: u32,
    pub y_stride: u32,
    pub u_stride: u32,
    pub v_stride: u32,
}

impl PictureFrame {
    fn sampling(self) -> YuvChromaSubsampling
        ensures { result ≡ sampling_of self.sampling }
    {
        setting_codes::sampling_of(self.sampling)
    }

    // Whether planes of these lengths are so many rows, whole, the last one's padding too: none of refusals 8 to 12 is due.
    #[tactic(auto, using(crate::proofs::Checked::planes_checked))]
    fn are_planes(self, y: usize, u: usize, v: usize) -> bool
        requires { IsFrame self }
        ensures { result ≡ planes_allowed self y u v }
    {
        PlaneShape::from(self).check(y, u, v).is_ok()
    }

    // Whether planes of these lengths are a picture.
    #[tactic(auto, unfolding(crate::specs::Picture::picture_allowed))]
    fn is_picture(self, y: usize, u: usize, v: usize) -> bool
        ensures { result ≡ picture_allowed self y u v }
    {
        y4m_writer::is_shape(self.sampling, self.width as usize, self.height as usize)
            && self.are_planes(y, u, v)
    }
}

// What its planes are held against, field by field, as of another frame in `shift_record`: a trait over the two would have a method for each of the six.
impl From<PictureFrame> for PlaneShape {
    ghost use Rattle.std.specs.Prelude.{◌≡◌};
    ghost use Rattle.y4m_picture.specs.Picture.{picture_shape};

    ghost from_gives = { λ frame shape. shape ≡ picture_shape frame };

    fn from(frame: PictureFrame) -> PlaneShape {
        PlaneShape {
            width: frame.width,
            height: frame.height,
            sampling: frame.sampling(),
            y_stride: frame.y_stride,
            u_stride: frame.u_stride,
            v_stride: frame.v_stride,
        }
    }
}

// Writes the picture of these planes, a line FRAME and then Y, U and V without padding, at the front of the output; or answers 19 where a side or the
// code is not allowed, a stride is shorter than its row or a plane is not stride × rows bytes, 16 where the output is shorter than the picture, and
// writes nothing.
pub fn write_picture(
    frame: PictureFrame,
    y: &[u8],
    u: &[u8],
    v: &[u8],
    output: &mut [u8],
) -> Result<usize, NotWritten>
    ensures { PicturePost frame y.now u.now v.now output.old result output.new }
{
    let planes = PicturePlanes::open(frame, y, u, v)?;
    let size = planes.picture_size();
    if output.len() < size {
        return Err(NotWritten::TooShort(size));
    }
    planes.put(output);
    Ok(size)
}
