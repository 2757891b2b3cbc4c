// A record's header, and what it says of the record: sides, settings, and the bytes that it takes (RULES 11.2, 11.7).
ghost use Rattle.std.specs.Prelude.{◌≤◌, length};
ghost use Rattle.shift_file.specs.File.{header_size};

use crate::{SettingCodes, ShiftForm};
use yuv_support::YuvChromaSubsampling;

// Bytes that begin with the header of a record.
#[derive(Clone, Copy)]
pub struct Part<'a> {
    pub form: ShiftForm,
    pub bytes: &'a [u8],
    ghost has_header: { header_size form ≤ length bytes.now },
}

impl<'a> Part<'a> {
    ghost use Rattle.std.specs.Prelude.{◌≡◌, ◌*◌, ◌≤◌, ◌↔◌, length, IsSome, IfSome};
    ghost use Rattle.little_endian.specs.Number.{number_in};
    ghost use Rattle.shift_file.specs.File.{header_size, codes_allowed, sampling_of, settings_told, code_list};
    ghost use Rattle.shift_file.specs.Read.{width_at, height_at, luma_at, chroma_at, settings_at, size_at};
    ghost use Rattle.shift_file.specs.Check.{shape_allowed};

    // These bytes, where they are as many as a header.
    pub fn new(form: ShiftForm, bytes: &'a [u8]) -> Option<Part<'a>>
        ensures long { IsSome result ↔ (header_size form ≤ length bytes.now) }
        ensures same { IfSome result (λ p. (p.form ≡ form) × (p.bytes.now ≡ bytes.now)) }
    {
        if bytes.len() < form.header_size() {
            return None;
        }
        Some(Part { form, bytes })
    }

    pub fn crossing(&self) -> u32
        ensures { result ≡ number_in 4 self.now.bytes.now }
    {
        little_endian::read_u32(self.bytes, 0)
    }

    pub fn width(&self) -> u16
        ensures { result ≡ width_at self.now.bytes.now }
    {
        little_endian::read_u16(self.bytes, 4)
    }

    pub fn height(&self) -> u16
        ensures { result ≡ height_at self.now.bytes.now }
    {
        little_endian::read_u16(self.bytes, 6)
    }

    // The settings; 4:2:0, and nothing recorded, where the form has none. A match on the form: only a form with settings has the bytes that `codes_at` reads.
    pub fn settings(&self) -> SettingCodes
        ensures { code_list result ≡ settings_told self.now.form (settings_at self.now.form self.now.bytes.now) }
    {
        match self.form {
            ShiftForm::WithoutSettings => SettingCodes::not_recorded(),
            ShiftForm::WithSettings => crate::codes_at(self.bytes),
        }
    }

    // The sampling of the planes.
    #[tactic(auto, using(crate::proofs::Record::sampling_told))]
    pub fn sampling(&self) -> YuvChromaSubsampling
        ensures { result ≡ sampling_of self.now.form (settings_at self.now.form self.now.bytes.now) }
    {
        setting_codes::sampling_of(self.settings().sampling)
    }

    // The bytes of the luma plane.
    pub fn luma_size(&self) -> usize
        ensures value { result ≡ luma_at self.now.bytes.now }
        ensures most { result ≤ 65536 * 65536 }
    {
        crate::luma_size(usize::from(self.width()), usize::from(self.height()))
    }

    // The bytes of a chroma plane.
    #[tactic(auto, unfolding(crate::specs::File::chroma_bytes))]
    pub fn chroma_size(&self) -> usize
        ensures value { result ≡ chroma_at self.now.form self.now.bytes.now }
        ensures most { result ≤ 65536 * 65536 }
    {
        let width = usize::from(self.width());
        let height = usize::from(self.height());
        crate::chroma_size(self.sampling(), width, height)
    }

    // The bytes of the record.
    #[tactic(auto, unfolding(crate::specs::Read::size_at))]
    pub fn size(&self) -> usize
        ensures { result ≡ size_at self.now.form self.now.bytes.now }
    {
        self.form.header_size() + (self.luma_size() + 2 * self.chroma_size())
    }

    // Whether the codes of the settings are allowed.
    #[tactic(auto, using(crate::proofs::Record::allowed_told))]
    fn are_settings(&self) -> bool
        ensures { result ≡ codes_allowed self.now.form (settings_at self.now.form self.now.bytes.now) }
    {
        self.settings().are_allowed()
    }

    // Whether the sides and the settings are allowed.
    #[tactic(auto, unfolding(crate::specs::Check::shape_allowed))]
    pub fn is_allowed(&self) -> bool
        ensures { result ≡ shape_allowed self.now.form self.now.bytes.now }
    {
        crate::is_side(usize::from(self.width()))
            && crate::is_side(usize::from(self.height()))
            && self.are_settings()
    }
}
