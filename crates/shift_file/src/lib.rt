// The shift file, a count, pairs of offset and length, then the records, and the check that decides for every byte sequence whether it is one
// (RULES 11.1 to 11.3, 11.7). The check compares a file's numbers with the places that it counts itself and adds none of them, so nothing wraps;
// it reads pairs and headers and no plane.
#![tactic(auto)]

pub mod part; // a record's header

ghost use Rattle.std.specs.Prelude.{◌≡◌, ◌+◌, ◌*◌, ◌≤◌, ◌<◌, length, take, drop};
ghost use Rattle.yuv_support.specs.Sampling.{chroma_width, chroma_height};
ghost use Rattle.shift_file.specs.File.{mark_size, settings_size, header_size, pairs_at, is_code, is_side, codes_allowed, sampling_of, settings_told, code_list, not_recorded};
ghost use Rattle.shift_file.specs.Read.{settings_at, size_at, count_at};
ghost use Rattle.shift_file.specs.Check.{record_stands, size_standing, pair_is, next_size, walk, is_marked, records_follow, is_file, form_in};

use part::Part;
use yuv_support::YuvChromaSubsampling;

// Which of its two forms a file has.
#[derive(Clone, Copy, Debug, PartialEq, Eq)]
pub enum ShiftForm {
    WithoutSettings,
    WithSettings,
}

// The settings of a record by their codes, 255 in range, matrix or transfer for not recorded.
// Codes and no Options: a caller's own, which need not be allowed, come in this type too and are then refused.
#[derive(Clone, Copy, Debug, PartialEq, Eq)]
pub struct SettingCodes {
    pub sampling: u32,
    pub range: u32,
    pub matrix: u32,
    pub transfer: u32,
}

// The most records of a file.
pub const MOST_RECORDS: u32 = 4096;

// What a file with settings begins with: no count is as large.
pub const MARK: u32 = 4294967295;

impl ShiftForm {
    // The bytes before the count.
    pub fn mark_size(self) -> usize
        ensures { (result ≡ mark_size self) × (result ≤ 4) }
    {
        match self {
            ShiftForm::WithoutSettings => 0,
            ShiftForm::WithSettings => 4,
        }
    }

    // The bytes of a record's settings. They are as many as the mark's by chance, and no rule says so: one function for both would be no plainer.
    fn settings_size(self) -> usize
        ensures { (result ≡ settings_size self) × (result ≤ 4) }
    {
        match self {
            ShiftForm::WithoutSettings => 0,
            ShiftForm::WithSettings => 4,
        }
    }

    // The bytes of a record before its planes: crossing, width and height, and the settings.
    pub fn header_size(self) -> usize
        ensures { (result ≡ header_size self) × (result ≤ 12) }
    {
        8 + self.settings_size()
    }
}

// ---- a record, in a part that starts with it

// A code below `codes`, or 255: not recorded. It tests a number, and converts none: 255 is no code of a setting, and 6 is no matrix without kr and kb, so no
// `TryFrom` reads them.
fn is_code(codes: u32, code: u32) -> bool
    ensures { result ≡ is_code codes code }
{
    (code < codes) || (code == 255)
}

impl SettingCodes {
    // 4:2:0, and nothing recorded.
    pub fn not_recorded() -> SettingCodes
        ensures { code_list result ≡ not_recorded }
    {
        SettingCodes {
            sampling: 0,
            range: 255,
            matrix: 255,
            transfer: 255,
        }
    }

    pub fn are_allowed(self) -> bool
        ensures { result ≡ codes_allowed ShiftForm.WithSettings (code_list self) }
    {
        YuvChromaSubsampling::try_from(self.sampling).is_ok()
            && is_code(2, self.range)
            && is_code(7, self.matrix)
            && is_code(4, self.transfer)
    }
}

// The four bytes of settings.
impl From<[u8; 4]> for SettingCodes {
    ghost use Rattle.std.specs.Prelude.{◌≡◌};
    ghost use Rattle.shift_file.specs.File.{code_list};

    ghost from_gives = { λ bytes codes. code_list codes ≡ bytes };

    fn from(bytes: [u8; 4]) -> SettingCodes {
        SettingCodes {
            sampling: u32::from(bytes[0]),
            range: u32::from(bytes[1]),
            matrix: u32::from(bytes[2]),
            transfer: u32::from(bytes[3]),
        }
    }
}

// The four settings, as an entry tells them.
impl From<SettingCodes> for [u64; 4] {
    ghost use Rattle.std.specs.Prelude.{◌≡◌};
    ghost use Rattle.shift_file.specs.File.{code_list};

    ghost from_gives = { λ codes numbers. numbers ≡ code_list codes };

    fn from(codes: SettingCodes) -> [u64; 4] {
        [
            u64::from(codes.sampling),
            u64::from(codes.range),
            u64::from(codes.matrix),
            u64::from(codes.transfer),
        ]
    }
}

// Whether a frame can have this side.
pub fn is_side(side: usize) -> bool
    ensures { result ≡ is_side side }
{
    (1..=16384).contains(&side)
}

// Sampling, range, matrix and transfer, after crossing, width and height.
pub fn codes_at(part: &[u8]) -> SettingCodes
    requires { 12 ≤ length part.now }
    ensures { code_list result ≡ settings_at ShiftForm.WithSettings part.now }
{
    SettingCodes::from(little_endian::array_at::<4>(part, 8))
}

// The settings of a record; 4:2:0, and nothing recorded, where it has none. This, `sampling_at`, `size_at` and `record_stands` say of bytes what
// RULES 11.1 and 11.2 say of them; each is one line over `Part`.
pub fn settings_told(form: ShiftForm, part: &[u8]) -> SettingCodes
    requires { header_size form ≤ length part.now }
    ensures { code_list result ≡ settings_told form (settings_at form part.now) }
{
    Part { form, bytes: part }.settings()
}

// The sampling of a record's planes.
pub fn sampling_at(form: ShiftForm, part: &[u8]) -> YuvChromaSubsampling
    requires { header_size form ≤ length part.now }
    ensures { result ≡ sampling_of form (settings_at form part.now) }
{
    Part { form, bytes: part }.sampling()
}

// The bytes of a luma plane.
pub fn luma_size(width: usize, height: usize) -> usize
    requires { (width < 65536) × (height < 65536) }
    ensures { (result ≡ width * height) × (result ≤ 65536 * 65536) }
{
    width * height
}

// The bytes of a chroma plane. Its sides are those of a record, of a picture or of a header's line: a struct of them would be made for the call.
pub fn chroma_size(sampling: YuvChromaSubsampling, width: usize, height: usize) -> usize
    requires { (width < 65536) × (height < 65536) }
    ensures { (result ≡ chroma_width width * chroma_height sampling height) × (result ≤ 65536 * 65536) }
{
    yuv_support::chroma_width(width) * sampling.chroma_height(height)
}

// The bytes of the record that a header tells.
pub fn size_at(form: ShiftForm, part: &[u8]) -> usize
    requires { header_size form ≤ length part.now }
    ensures { result ≡ size_at form part.now }
{
    Part { form, bytes: part }.size()
}

// The bytes of the record at the front, where an allowed one stands there, whole.
#[tactic(auto, unfolding(crate::specs::Check::size_standing, crate::specs::Check::record_stands))]
pub fn size_standing(form: ShiftForm, bytes: &[u8]) -> Option<usize>
    ensures { result ≡ size_standing form bytes.now }
{
    let part = Part::new(form, bytes)?;
    if !part.is_allowed() {
        return None;
    }
    // Worked out once: the walk over a file waits for it.
    let size = part.size();
    (size <= bytes.len()).then_some(size)
}

// Whether an allowed record stands there, whole.
#[tactic(auto, unfolding(crate::specs::Check::size_standing))]
pub fn record_stands(form: ShiftForm, part: &[u8]) -> bool
    ensures { result ≡ record_stands form part.now }
{
    size_standing(form, part).is_some()
}

// ---- a file

// What stands from a place on. This and `part_of` are one line over a slice, whose contracts say it by `drop` and `take` alone, as the definitions of files do.
pub fn from_place(bytes: &[u8], at: usize) -> &[u8]
    requires { at ≤ length bytes.now }
    ensures { result.now ≡ drop at bytes.now }
{
    &bytes[at..]
}

// The planes of a record, or of a picture, each a part of the bytes of its file.
#[derive(Clone, Copy, Debug, PartialEq, Eq)]
pub struct PlaneParts<'a> {
    pub y: &'a [u8],
    pub u: &'a [u8],
    pub v: &'a [u8],
}

// So many bytes from a place on.
pub fn part_of(bytes: &[u8], at: usize, size: usize) -> &[u8]
    requires { at + size ≤ length bytes.now }
    ensures { result.now ≡ take size (drop at bytes.now) }
{
    let end = at + size;
    &bytes[at..end]
}

#[tactic(auto, unfolding(crate::specs::Check::pair_is))]
fn pair_is(pair: &[u8], at: usize, size: usize) -> bool
    requires { 12 ≤ length pair.now }
    ensures { result ≡ pair_is pair.now at size }
{
    let offset = little_endian::read_u64(pair, 0);
    let extent = little_endian::read_u32(pair, 8);
    (offset == at as u64) && (extent as usize == size)
}

// Bytes that are held against a form: what a file of it has at its front, and whether they are one. `Part` has the same fields, and a header is there.
#[derive(Clone, Copy)]
struct Candidate<'a> {
    form: ShiftForm,
    bytes: &'a [u8],
}

impl Candidate<'_> {
    // The bytes of the record at a place, where it is whole and the pair at another is its pair.
    #[tactic(auto, unfolding(crate::specs::Check::next_size, crate::specs::Check::size_standing))]
    fn next_size(&self, pair: usize, at: usize) -> Option<usize>
        requires { (pair + 12 ≤ length self.now.bytes.now) × (at ≤ length self.now.bytes.now) }
        ensures { result ≡ next_size self.now.form self.now.bytes.now pair at }
    {
        let size = size_standing(self.form, from_place(self.bytes, at))?;
        pair_is(from_place(self.bytes, pair), at, size).then_some(size)
    }

    // Whether so many pairs and records belong together, and the file ends with them.
    fn walk_records(&self, first_pair: usize, first: usize, count: usize) -> bool
        requires { (first_pair + 12 * count ≤ length self.now.bytes.now) × (first ≤ length self.now.bytes.now) }
        ensures { result ≡ walk self.now.form self.now.bytes.now first_pair first count }
    {
        let mut at = first;
        for k in 0..count {
            match self.next_size(first_pair + 12 * k, at) {
                Some(size) => at += size,
                None => return false,
            }
        }
        at == self.bytes.len()
    }

    fn is_marked(&self) -> bool
        requires { pairs_at self.now.form ≤ length self.now.bytes.now }
        ensures { result ≡ is_marked self.now.form self.now.bytes.now }
    {
        match self.form {
            ShiftForm::WithoutSettings => true,
            ShiftForm::WithSettings => little_endian::read_u32(self.bytes, 0) == MARK,
        }
    }

    // Whether the pairs have room, and they and the records belong together.
    #[tactic(auto, unfolding(crate::specs::Check::records_follow))]
    fn records_follow(&self, count: usize) -> bool
        requires { count ≤ 4096 }
        ensures { result ≡ records_follow self.now.form self.now.bytes.now count }
    {
        let pairs = self.form.mark_size() + 4;
        let first = pairs + 12 * count;
        first <= self.bytes.len() && self.walk_records(pairs, first, count)
    }

    // Whether these bytes are a file of the form.
    #[tactic(auto, unfolding(crate::specs::Check::is_file))]
    fn is_file(&self) -> bool
        ensures { result ≡ is_file self.now.form self.now.bytes.now }
    {
        if self.bytes.len() < self.form.mark_size() + 4 {
            return false;
        }
        let count = count_at(self.form, self.bytes);
        self.is_marked() && count <= MOST_RECORDS && self.records_follow(count as usize)
    }
}

// The count, as it stands there.
#[tactic(auto, unfolding(crate::specs::Read::count_at))]
pub fn count_at(form: ShiftForm, file: &[u8]) -> u32
    requires { pairs_at form ≤ length file.now }
    ensures { result ≡ count_at form file.now }
{
    little_endian::read_u32(file, form.mark_size())
}

// Whether these bytes are a shift file. Form and bytes are two parameters here, and of `size_standing` and `count_at`: `ShiftFile` of `shift_reader` is
// what they become once they are one.
pub fn is_file(form: ShiftForm, file: &[u8]) -> bool
    ensures { result ≡ is_file form file.now }
{
    Candidate { form, bytes: file }.is_file()
}

// Which form a file has, by the mark that it begins with or not: no other form can be a file's.
#[tactic(auto, unfolding(crate::specs::Check::form_in))]
pub fn form_of(file: &[u8]) -> ShiftForm
    ensures { result ≡ form_in file.now }
{
    if 4 <= file.len() && little_endian::read_u32(file, 0) == MARK {
        ShiftForm::WithSettings
    } else {
        ShiftForm::WithoutSettings
    }
}
