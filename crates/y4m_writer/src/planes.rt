// Planes back to back that were checked: whole pictures of an allowed shape (RULES 14.6).
ghost use Rattle.std.specs.Prelude.{◌≡◌, true, length};
ghost use Rattle.yuv_support.specs.Codes.{sampling_code};
ghost use Rattle.y4m_writer.specs.Pictures.{can_write};

use y4m_line::HeaderLine;
use yuv_error::YuvError;
use yuv_support::YuvChromaSubsampling;

// The planes, and what their file's header says.
#[derive(Clone, Copy)]
pub struct WholePictures<'a> {
    pub header: HeaderLine,
    pub bytes: &'a [u8],
    ghost whole: { can_write (sampling_code header.sampling) header.width header.height (length bytes.now) ≡ true },
}

impl<'a> WholePictures<'a> {
    ghost use Rattle.std.specs.Prelude.{◌≡◌, ◌≤◌, ◌^◌, ◌/◌, true, false, length, IfOk, IfErr, OnOk, IfSome, IfNone};
    ghost use Rattle.std.proofs.lemmas.List.Edits.{sets};
    ghost use Rattle.yuv_support.specs.Codes.{sampling_code};
    ghost use Rattle.y4m_file.specs.Check.{plane_bytes};
    ghost use Rattle.y4m_writer.specs.Pictures.{can_write};
    ghost use Rattle.y4m_writer.specs.Known.{header_line, frames_in, file_in};

    // These bytes, where code and sides are allowed and they are whole pictures.
    #[tactic(auto, using(crate::proofs::Whole::no_sampling))]
    pub fn open(
        code: u32,
        width: usize,
        height: usize,
        bytes: &'a [u8],
    ) -> Result<WholePictures<'a>, YuvError>
        ensures same { IfOk result (λ p. (sampling_code p.header.sampling ≡ code) × (p.header.width ≡ width) × (p.header.height ≡ height) × (p.bytes.now ≡ bytes.now)) }
        ensures accepted { OnOk result (can_write code width height (length bytes.now) ≡ true) }
        ensures refused { IfErr result (λ e. (e ≡ YuvError.MalformedY4m) × (can_write code width height (length bytes.now) ≡ false)) }
    {
        let sampling = YuvChromaSubsampling::try_from(code).map_err(|_| YuvError::MalformedY4m)?;
        let header = HeaderLine {
            width,
            height,
            sampling,
        };
        if !crate::can_write(header, bytes.len()) {
            return Err(YuvError::MalformedY4m);
        }
        Ok(WholePictures { header, bytes })
    }

    // The bytes of a picture's planes.
    fn plane_bytes(&self) -> usize
        ensures value { result ≡ plane_bytes self.now.header.sampling self.now.header.width self.now.header.height }
        ensures bounds { (3 ≤ result) × (result ≤ 2 ^ 34) }
    {
        let header = self.header;
        y4m_file::plane_bytes(header.sampling, header.width, header.height)
    }

    // How many pictures they are.
    fn count(&self) -> usize
        ensures { result ≡ length self.now.bytes.now / plane_bytes self.now.header.sampling self.now.header.width self.now.header.height }
    {
        self.bytes.len() / self.plane_bytes()
    }

    // The size of their file, of which the header's line takes so many bytes, where it is a number of 64 bits.
    #[tactic(auto, using(crate::proofs::Whole::planes_size))]
    pub fn file_size(&self, line: usize) -> Option<usize>
        requires { line ≡ length (header_line self.now.header) }
        ensures fits { IfSome result (λ size. size ≡ length (file_in self.now.header self.now.bytes.now)) }
        ensures large { IfNone result (2 ^ 64 ≤ length (file_in self.now.header self.now.bytes.now)) }
    {
        (line + self.bytes.len()).checked_add(6 * self.count())
    }

    // The pictures at the front, each a line FRAME and its planes.
    pub fn put(&self, output: &mut [u8])
        requires { length (frames_in self.now.header self.now.bytes.now) ≤ length output.old }
        ensures { output.new ≡ sets output.old 0 (frames_in self.now.header self.now.bytes.now) }
    {
        let planes = self.plane_bytes();
        // The place in the output is a sum: a line FRAME of 6 bytes stands before each picture.
        let mut to = 0;
        for picture in self.bytes.chunks_exact(planes) {
            little_endian::put(output, to, b"FRAME\n");
            little_endian::put(output, to + 6, picture);
            to += 6 + planes;
        }
    }
}
