// Reading a shift file: how many records it has, where each of them and each of its planes stands, and these as parts of the file (RULES 11.4).
// Nothing is copied: what the check did not look at, the planes, is not looked at here either.
#![tactic(auto)]

pub mod file; // a file that was checked, and its records

ghost use Rattle.std.specs.Prelude.{◌≡◌, ◌+◌, ◌*◌, ◌≤◌, ◌<◌, length};
ghost use Rattle.std.proofs.lemmas.List.Edits.{sets};
ghost use Rattle.shift_file.specs.File.{settings_told, code_list, bytes_of};
ghost use Rattle.shift_file.specs.Read.{records_in};
ghost use Rattle.shift_reader.specs.Entry.{record_of, entry_of, entry_size, entries_of, offset_of};
ghost use Rattle.shift_reader.specs.Known.{HasRecord, EntryIs, record_in, offset_in};
ghost use Rattle.shift_reader.specs.Reading.{ReadPost};

use file::{FileRecord, ShiftFile};
use shift_file::{PlaneParts, SettingCodes, ShiftForm};
use yuv_error::YuvError;

// What is told of a record: eleven numbers, or its settings after them too.
#[derive(Clone, Copy, Debug, PartialEq, Eq)]
pub enum EntryKind {
    Places,
    PlacesAndSettings,
}

impl EntryKind {
    // The numbers of an entry.
    fn size(self) -> usize
        ensures { (result ≡ entry_size self) × (11 ≤ result) × (result ≤ 15) }
    {
        match self {
            EntryKind::Places => 11,
            EntryKind::PlacesAndSettings => 15,
        }
    }
}

// A record of a file: what its header says, and where it and its planes stand, from the file's start.
#[derive(Clone, Copy, Debug, PartialEq, Eq)]
pub struct ShiftEntry {
    pub crossing: u32,
    pub width: u16,
    pub height: u16,
    pub offset: usize,
    pub length: usize,
    pub y_offset: usize,
    pub y_length: usize,
    pub u_offset: usize,
    pub v_offset: usize,
    pub chroma_length: usize,
}

// What was read: the file's records, and how many of them were told. The default, 0 and 0, is what is told with a refusal.
#[derive(Clone, Copy, Debug, Default, PartialEq, Eq)]
pub struct ShiftReading {
    pub count: usize,
    pub told: usize,
}

// The eleven numbers of an entry.
impl From<ShiftEntry> for [u64; 11] {
    ghost use Rattle.std.specs.Prelude.{◌≡◌};
    ghost use Rattle.shift_reader.specs.Entry.{entry_numbers};

    ghost from_gives = { λ entry numbers. numbers ≡ entry_numbers entry };

    fn from(entry: ShiftEntry) -> [u64; 11] {
        [
            u64::from(entry.crossing),
            u64::from(entry.width),
            u64::from(entry.height),
            entry.offset as u64,
            entry.length as u64,
            entry.y_offset as u64,
            entry.y_length as u64,
            entry.u_offset as u64,
            entry.chroma_length as u64,
            entry.v_offset as u64,
            entry.chroma_length as u64,
        ]
    }
}

// ---- record k of bytes that are known to have it. RULES 11.4 has a record and each of its planes be a part of the file, and these promise it of the bytes
// themselves; each is one line over `FileRecord`.

// Record k of the file that these bytes are.
fn known_record(form: ShiftForm, file: &[u8], k: usize) -> FileRecord
    requires { HasRecord form file.now k }
    ensures { (result.file.form ≡ form) × (result.file.bytes.now ≡ file.now) × (result.k ≡ k) }
{
    let count = shift_file::count_at(form, file) as usize;
    let file = ShiftFile {
        form,
        bytes: file,
        count,
    };
    FileRecord { file, k }
}

// Record k, without its bytes.
pub fn entry_of(form: ShiftForm, file: &[u8], k: usize) -> ShiftEntry
    requires { HasRecord form file.now k }
    ensures { EntryIs form file.now k result }
{
    known_record(form, file, k).entry()
}

// Record k: header and planes.
pub fn record_part(form: ShiftForm, file: &[u8], k: usize) -> &[u8]
    requires { HasRecord form file.now k }
    ensures { result.now ≡ bytes_of (record_of form file.now k) }
{
    known_record(form, file, k).bytes()
}

// The planes of record k.
pub fn record_planes(form: ShiftForm, file: &[u8], k: usize) -> PlaneParts
    requires { HasRecord form file.now k }
    ensures y { result.y.now ≡ (record_of form file.now k).y }
    ensures u { result.u.now ≡ (record_of form file.now k).u }
    ensures v { result.v.now ≡ (record_of form file.now k).v }
{
    known_record(form, file, k).planes()
}

// The settings of record k; 4:2:0, and nothing recorded, in the form without.
pub fn settings_of(form: ShiftForm, file: &[u8], k: usize) -> SettingCodes
    requires { HasRecord form file.now k }
    ensures { code_list result ≡ settings_told form (record_of form file.now k).settings }
{
    known_record(form, file, k).settings()
}

// ---- entries

// The entry of a record at the front: eleven numbers, and its settings where they are told.
fn tell_entry(kind: EntryKind, file_record: &FileRecord, entries: &mut [u64])
    requires { entry_size kind ≤ length entries.old }
    ensures { entries.new ≡ sets entries.old 0 (entry_of kind file_record.now.file.form (offset_in file_record.now) (record_in file_record.now)) }
{
    little_endian::put(entries, 0, &<[u64; 11]>::from(file_record.entry()));
    match kind {
        EntryKind::Places => {}
        EntryKind::PlacesAndSettings => {
            little_endian::put(entries, 11, &<[u64; 4]>::from(file_record.settings()));
        }
    }
}

// So many entries from a record on.
fn tell_entries(kind: EntryKind, file: &ShiftFile, first: usize, count: usize, entries: &mut [u64])
    requires below { first + count ≤ file.now.count }
    requires room { entry_size kind * count ≤ length entries.old }
    ensures { entries.new ≡ sets entries.old 0 (entries_of kind file.now.form (records_in file.now.form file.now.bytes.now) first count) }
{
    let size = kind.size();
    for i in 0..count {
        tell_entry(kind, &file.record(first + i), &mut entries[size * i..]);
    }
}

// How many records a file has, and the entries of those from `first` on that have room; or 15 for bytes that are no shift file, and nothing written. The
// form is what is asked of the bytes.
pub fn read_records(
    kind: EntryKind,
    form: ShiftForm,
    file: &[u8],
    first: usize,
    entries: &mut [u64],
) -> Result<ShiftReading, YuvError>
    ensures { ReadPost kind form file.now first entries.old result entries.new }
{
    let file = ShiftFile::open(form, file)?;
    let count = file.count;
    let from = first.min(count);
    let told = (count - from).min(entries.len() / kind.size());
    tell_entries(kind, &file, from, told, entries);
    Ok(ShiftReading { count, told })
}
