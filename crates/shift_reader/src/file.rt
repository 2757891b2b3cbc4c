// A shift file that the check let through, and its records (RULES 11.4).
ghost use Rattle.std.specs.Prelude.{◌≡◌, ◌≤◌, ◌<◌, true};
ghost use Rattle.little_endian.specs.Number.{Bytes};
ghost use Rattle.shift_file.specs.Read.{count_at};
ghost use Rattle.shift_file.specs.Check.{is_file};

use crate::ShiftEntry;
use shift_file::part::Part;
use shift_file::{PlaneParts, SettingCodes, ShiftForm};
use yuv_error::YuvError;

// Bytes that are a shift file, and how many records it has. `RecordList` of `shift_writer` has the same fields, of records without count and pairs.
#[derive(Clone, Copy)]
pub struct ShiftFile<'a> {
    pub form: ShiftForm,
    pub bytes: &'a [u8],
    pub count: usize,
    ghost checked: { is_file form bytes.now ≡ true },
    ghost counted: { count ≡ count_at form bytes.now },
    ghost few: { count ≤ 4096 },
    ghost are_bytes: { Bytes bytes.now },
}

// Record k of a file, from 0.
#[derive(Clone, Copy)]
pub struct FileRecord<'a> {
    pub file: ShiftFile<'a>,
    pub k: usize,
    ghost below: { k < file.count },
}

impl<'a> ShiftFile<'a> {
    ghost use Rattle.std.specs.Prelude.{◌≡◌, ◌<◌, ◌↔◌, true, false, length, IsOk, IfOk, IfErr};
    ghost use Rattle.shift_file.specs.Read.{records_in};
    ghost use Rattle.shift_file.specs.Check.{is_file};

    // These bytes, where they are a shift file.
    pub fn open(form: ShiftForm, bytes: &'a [u8]) -> Result<ShiftFile<'a>, YuvError>
        ensures checked { IsOk result ↔ (is_file form bytes.now ≡ true) }
        ensures same { IfOk result (λ f. (f.form ≡ form) × (f.bytes.now ≡ bytes.now)) }
        ensures counted { IfOk result (λ f. f.count ≡ length (records_in form bytes.now)) }
        ensures refused { IfErr result (λ e. (e ≡ YuvError.MalformedShiftFile) × (is_file form bytes.now ≡ false)) }
    {
        if shift_file::is_file(form, bytes) {
            let count = shift_file::count_at(form, bytes) as usize;
            Ok(ShiftFile { form, bytes, count })
        } else {
            Err(YuvError::MalformedShiftFile)
        }
    }

    // Record k.
    pub fn record(&self, k: usize) -> FileRecord<'a>
        requires { k < self.now.count }
        ensures { (result.file ≡ self.now) × (result.k ≡ k) }
    {
        FileRecord { file: *self, k }
    }
}

impl<'a> FileRecord<'a> {
    ghost use Rattle.std.specs.Prelude.{◌≡◌};
    ghost use Rattle.shift_file.specs.File.{settings_told, code_list, bytes_of};
    ghost use Rattle.shift_reader.specs.Known.{EntryIs, record_in};

    // The record without its bytes: its pair says where it stands, and its header what it is.
    pub fn entry(&self) -> ShiftEntry
        ensures { EntryIs self.now.file.form self.now.file.bytes.now self.now.k result }
    {
        let pair = self.file.form.mark_size() + 4 + 12 * self.k;
        let offset = little_endian::read_u64(self.file.bytes, pair) as usize;
        let length = little_endian::read_u32(self.file.bytes, pair + 8) as usize;
        let part = Part {
            form: self.file.form,
            bytes: shift_file::from_place(self.file.bytes, offset),
        };
        let luma = part.luma_size();
        let chroma = part.chroma_size();
        let y_offset = offset + self.file.form.header_size();
        ShiftEntry {
            crossing: part.crossing(),
            width: part.width(),
            height: part.height(),
            offset,
            length,
            y_offset,
            y_length: luma,
            u_offset: y_offset + luma,
            v_offset: y_offset + luma + chroma,
            chroma_length: chroma,
        }
    }

    // Header and planes.
    pub fn bytes(&self) -> &'a [u8]
        ensures { result.now ≡ bytes_of (record_in self.now) }
    {
        let entry = self.entry();
        shift_file::part_of(self.file.bytes, entry.offset, entry.length)
    }

    pub fn planes(&self) -> PlaneParts<'a>
        ensures y { result.y.now ≡ (record_in self.now).y }
        ensures u { result.u.now ≡ (record_in self.now).u }
        ensures v { result.v.now ≡ (record_in self.now).v }
    {
        let entry = self.entry();
        PlaneParts {
            y: shift_file::part_of(self.file.bytes, entry.y_offset, entry.y_length),
            u: shift_file::part_of(self.file.bytes, entry.u_offset, entry.chroma_length),
            v: shift_file::part_of(self.file.bytes, entry.v_offset, entry.chroma_length),
        }
    }

    // The settings; 4:2:0, and nothing recorded, in the form without.
    pub fn settings(&self) -> SettingCodes
        ensures { code_list result ≡ settings_told self.now.file.form (record_in self.now).settings }
    {
        let part = Part {
            form: self.file.form,
            bytes: self.bytes(),
        };
        part.settings()
    }
}
