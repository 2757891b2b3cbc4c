// The planes of a picture that were checked, and the picture that is made of them (RULES 14.7). `FramePlanes` of `shift_record` is made of another frame,
// and says which of refusals 8 to 12 is due where this one answers 19. What is alike is the check, `PlaneShape::check`, and the rows, `PaddedPlanes`.
ghost use Rattle.std.specs.Prelude.{◌≡◌, true, length};
ghost use Rattle.y4m_picture.specs.Picture.{picture_allowed};

use crate::{FRAME_LINE, PictureFrame};
use shift_record::padded::PaddedPlanes;
use yuv_error::YuvError;

// Planes of a frame that is allowed, each of whole rows.
#[derive(Clone, Copy)]
pub struct PicturePlanes<'a> {
    pub frame: PictureFrame,
    pub y: &'a [u8],
    pub u: &'a [u8],
    pub v: &'a [u8],
    ghost allowed: { picture_allowed frame (length y.now) (length u.now) (length v.now) ≡ true },
}

impl<'a> PicturePlanes<'a> {
    ghost use Rattle.std.specs.Prelude.{◌≡◌, ◌≤◌, true, false, length, IfOk, IfErr, OnOk};
    ghost use Rattle.std.proofs.lemmas.List.Edits.{sets};
    ghost use Rattle.y4m_file.specs.File.{picture_bytes};
    ghost use Rattle.y4m_picture.specs.Picture.{picture_made, picture_allowed};

    // This frame with these planes, which C lends as three slices: here they become one thing.
    // Or 19 where a side, the code or a plane is not allowed.
    pub fn open(
        frame: PictureFrame,
        y: &'a [u8],
        u: &'a [u8],
        v: &'a [u8],
    ) -> Result<PicturePlanes<'a>, YuvError>
        ensures same { IfOk result (λ p. (p.frame ≡ frame) × (p.y.now ≡ y.now) × (p.u.now ≡ u.now) × (p.v.now ≡ v.now)) }
        ensures accepted { OnOk result (picture_allowed frame (length y.now) (length u.now) (length v.now) ≡ true) }
        ensures refused { IfErr result (λ e. (e ≡ YuvError.MalformedY4m) × (picture_allowed frame (length y.now) (length u.now) (length v.now) ≡ false)) }
    {
        if frame.is_picture(y.len(), u.len(), v.len()) {
            Ok(PicturePlanes { frame, y, u, v })
        } else {
            Err(YuvError::MalformedY4m)
        }
    }

    // The bytes of the picture.
    #[tactic(auto, using(crate::proofs::Made::planes_frame, crate::proofs::Made::planes_length))]
    pub fn picture_size(&self) -> usize
        ensures { result ≡ length (picture_bytes (picture_made self.now.frame self.now.y.now self.now.u.now self.now.v.now)) }
    {
        let frame = self.frame;
        FRAME_LINE
            + y4m_file::plane_bytes(
                frame.sampling(),
                frame.width as usize,
                frame.height as usize,
            )
    }

    // The picture, at the front.
    #[tactic(auto, using(crate::proofs::Made::planes_whole, crate::proofs::Made::length_parts))]
    pub fn put(&self, output: &mut [u8])
        requires { length (picture_bytes (picture_made self.now.frame self.now.y.now self.now.u.now self.now.v.now)) ≤ length output.old }
        ensures { output.new ≡ sets output.old 0 (picture_bytes (picture_made self.now.frame self.now.y.now self.now.u.now self.now.v.now)) }
    {
        let planes = PaddedPlanes {
            shape: self.frame.into(),
            y: self.y,
            u: self.u,
            v: self.v,
        };
        little_endian::put(output, 0, b"FRAME\n");
        planes.put(output, FRAME_LINE);
    }
}
