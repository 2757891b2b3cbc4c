// Rows, each with its padding after it: of a plane, and of the three planes of a shape (RULES 11.6).
ghost use Rattle.std.specs.Prelude.{◌≡◌, ◌*◌, ◌≤◌, length};
ghost use Rattle.yuv_error.specs.Known.{PlanesWhole};

use yuv_error::PlaneShape;

// So many rows of so many bytes, each from a multiple of the stride on.
#[derive(Clone, Copy)]
pub struct PaddedRows<'a> {
    pub bytes: &'a [u8],
    pub size: usize,
    pub stride: usize,
    pub count: usize,
    ghost wide: { size ≤ stride },
    ghost whole: { length bytes.now ≡ stride * count },
}

impl PaddedRows<'_> {
    ghost use Rattle.std.specs.Prelude.{◌≡◌, ◌+◌, ◌*◌, ◌≤◌, length};
    ghost use Rattle.std.proofs.lemmas.List.Edits.{sets};
    ghost use Rattle.shift_record.specs.Record.{unpadded};

    // The bytes of the rows without their padding.
    fn unpadded_size(&self) -> usize
        ensures { result ≡ self.now.size * self.now.count }
    {
        self.size * self.count
    }

    // The rows without their padding, one after the other, from a place on, as `little_endian::put` does it.
    pub fn put(&self, output: &mut [u8], at: usize)
        requires { at + self.now.size * self.now.count ≤ length output.old }
        ensures { output.new ≡ sets output.old at (unpadded self.now.size self.now.stride self.now.count self.now.bytes.now) }
    {
        for row in 0..self.count {
            let from = self.stride * row;
            let to = at + self.size * row;
            little_endian::put(output, to, shift_file::part_of(self.bytes, from, self.size));
        }
    }
}

// The planes of a shape, each of whole rows.
#[derive(Clone, Copy)]
pub struct PaddedPlanes<'a> {
    pub shape: PlaneShape,
    pub y: &'a [u8],
    pub u: &'a [u8],
    pub v: &'a [u8],
    ghost whole: { PlanesWhole shape (length y.now) (length u.now) (length v.now) },
}

impl PaddedPlanes<'_> {
    ghost use Rattle.std.specs.Prelude.{◌≡◌, ◌+◌, ◌≤◌, length};
    ghost use Rattle.std.proofs.lemmas.List.Edits.{sets};
    ghost use Rattle.shift_record.specs.Record.{unpadded_planes};

    // Y, U and V without their padding, one after the other, from a place on, as `put` of `little_endian` does it.
    pub fn put(&self, output: &mut [u8], at: usize)
        requires { at + length (unpadded_planes self.now.shape self.now.y.now self.now.u.now self.now.v.now) ≤ length output.old }
        ensures { output.new ≡ sets output.old at (unpadded_planes self.now.shape self.now.y.now self.now.u.now self.now.v.now) }
    {
        let shape = self.shape;
        let chroma_width = yuv_support::chroma_width(shape.width as usize);
        let chroma_height = shape.sampling.chroma_height(shape.height as usize);
        let y = PaddedRows {
            bytes: self.y,
            size: shape.width as usize,
            stride: shape.y_stride as usize,
            count: shape.height as usize,
        };
        let u = PaddedRows {
            bytes: self.u,
            size: chroma_width,
            stride: shape.u_stride as usize,
            count: chroma_height,
        };
        let v = PaddedRows {
            bytes: self.v,
            size: chroma_width,
            stride: shape.v_stride as usize,
            count: chroma_height,
        };
        let u_at = at + y.unpadded_size();
        let v_at = u_at + u.unpadded_size();
        y.put(output, at);
        u.put(output, u_at);
        v.put(output, v_at);
    }
}
