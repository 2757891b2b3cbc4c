// A frame that is allowed, with planes of whole rows, and the record that is made of them (RULES 11.6).
ghost use Rattle.std.specs.Prelude.{length};
ghost use Rattle.shift_record.specs.Known.{PlanesFit};

use crate::RecordFrame;
use crate::padded::PaddedPlanes;
use yuv_error::{PlaneShape, YuvError};

#[derive(Clone, Copy)]
pub struct FramePlanes<'a> {
    pub frame: RecordFrame,
    pub y: &'a [u8],
    pub u: &'a [u8],
    pub v: &'a [u8],
    ghost fit: { PlanesFit frame (length y.now) (length u.now) (length v.now) },
}

impl<'a> FramePlanes<'a> {
    ghost use Rattle.std.specs.Prelude.{◌≡◌, ◌≤◌, length, Ok, Err, IfOk, IfErr, OnOk};
    ghost use Rattle.std.proofs.lemmas.List.Edits.{sets};
    ghost use Rattle.yuv_error.specs.Numbers.{numbers_of};
    ghost use Rattle.yuv_error.specs.Rules.{first_numbers};
    ghost use Rattle.shift_file.specs.File.{header_size, bytes_of};
    ghost use Rattle.shift_record.specs.Record.{record_form, settings_of, header, record_made, opening_rules};

    // This frame with these planes, which C lends as three slices: here they become one thing.
    // Or 15 where a side or a setting is not allowed, 8 to 12 where a plane is not of whole rows.
    pub fn open(
        frame: RecordFrame,
        y: &'a [u8],
        u: &'a [u8],
        v: &'a [u8],
    ) -> Result<FramePlanes<'a>, YuvError>
        ensures same { IfOk result (λ p. (p.frame ≡ frame) × (p.y.now ≡ y.now) × (p.u.now ≡ u.now) × (p.v.now ≡ v.now)) }
        ensures accepted { OnOk result (numbers_of (Ok tt) ≡ first_numbers (opening_rules frame y.now u.now v.now)) }
        ensures refused { IfErr result (λ e. numbers_of (Err e) ≡ first_numbers (opening_rules frame y.now u.now v.now)) }
    {
        if !frame.is_allowed() {
            return Err(YuvError::MalformedShiftFile);
        }
        PlaneShape::from(frame).check(y.len(), u.len(), v.len())?;
        Ok(FramePlanes { frame, y, u, v })
    }

    // The bytes of the record.
    #[tactic(auto, using(crate::proofs::Made::length_made))]
    pub fn record_size(&self) -> usize
        ensures { result ≡ length (bytes_of (record_made self.now.frame self.now.y.now self.now.u.now self.now.v.now)) }
    {
        let width = self.frame.width as usize;
        let height = self.frame.height as usize;
        let luma = shift_file::luma_size(width, height);
        let chroma = shift_file::chroma_size(self.frame.sampling(), width, height);
        self.frame.form().header_size() + (luma + 2 * chroma)
    }

    // The settings, after crossing, width and height: C lends each code in 32 bits, and an allowed one fits a byte.
    fn put_settings(&self, output: &mut [u8])
        requires { header_size (record_form self.now.frame) ≤ length output.old }
        ensures { output.new ≡ sets output.old 8 (settings_of self.now.frame) }
    {
        if let Some(settings) = self.frame.settings {
            let codes = [
                settings.sampling as u8,
                settings.range as u8,
                settings.matrix as u8,
                settings.transfer as u8,
            ];
            little_endian::put(output, 8, &codes);
        }
    }

    fn put_header(&self, output: &mut [u8])
        requires { header_size (record_form self.now.frame) ≤ length output.old }
        ensures { output.new ≡ sets output.old 0 (header self.now.frame) }
    {
        little_endian::write_number(output, 0, self.frame.crossing.into(), 4);
        little_endian::write_number(output, 4, self.frame.width.into(), 2);
        little_endian::write_number(output, 6, self.frame.height.into(), 2);
        self.put_settings(output);
    }

    // The record, at the front.
    #[tactic(auto, using(crate::proofs::Made::length_made))]
    pub fn put_record(&self, output: &mut [u8])
        requires { length (bytes_of (record_made self.now.frame self.now.y.now self.now.u.now self.now.v.now)) ≤ length output.old }
        ensures { output.new ≡ sets output.old 0 (bytes_of (record_made self.now.frame self.now.y.now self.now.u.now self.now.v.now)) }
    {
        let planes = PaddedPlanes {
            shape: self.frame.into(),
            y: self.y,
            u: self.u,
            v: self.v,
        };
        self.put_header(output);
        planes.put(output, self.frame.form().header_size());
    }
}
