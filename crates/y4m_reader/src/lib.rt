// Reading a Y4M file: its sides, its sampling, how many pictures it has and where each plane stands, and the planes as parts of the file
// (RULES 14.5). Nothing is copied, and no plane is looked at.
#![tactic(auto)]

ghost use Rattle.std.specs.Prelude.{◌≡◌, ◌+◌, ◌*◌, ◌≤◌, ◌<◌, ◌^◌, length, drop};
ghost use Rattle.std.proofs.lemmas.List.Edits.{sets};
ghost use Rattle.y4m_line.specs.Header.{line_end};
ghost use Rattle.y4m_file.specs.Read.{file_in};
ghost use Rattle.y4m_reader.specs.Entry.{picture_of, plane_numbers, entries_of};
ghost use Rattle.y4m_reader.specs.Known.{HasPicture, SizesAre, Stood};
ghost use Rattle.y4m_reader.specs.Reading.{ReadPost};

use shift_file::PlaneParts;
use y4m_file::Y4mRead;
use y4m_line::HeaderLine;
use yuv_error::YuvError;

// The numbers of an entry.
const ENTRY: usize = 6;

// What was read: what the file's header says, how many pictures it has, and how many of them were told.
#[derive(Clone, Copy, Debug, PartialEq, Eq)]
pub struct Y4mReading {
    pub header: HeaderLine,
    pub count: usize,
    pub told: usize,
}

// Its five numbers, with the code of the sampling.
impl From<Y4mReading> for [usize; 5] {
    ghost use Rattle.std.specs.Prelude.{◌≡◌, [], ◌∷◌};
    ghost use Rattle.yuv_support.specs.Codes.{sampling_code};

    ghost from_gives = { λ reading numbers. numbers
        ≡ reading.header.width ∷ reading.header.height ∷ sampling_code reading.header.sampling ∷ reading.count ∷ reading.told ∷ [] };

    fn from(reading: Y4mReading) -> [usize; 5] {
        [
            reading.header.width,
            reading.header.height,
            u32::from(reading.header.sampling) as usize,
            reading.count,
            reading.told,
        ]
    }
}

// The bytes of Y, and of U or V.
#[derive(Clone, Copy, Debug, PartialEq, Eq)]
struct PlaneSizes {
    luma: usize,
    chroma: usize,
}

// ---- places

// The bytes of a file's planes.
fn plane_sizes(file: &Y4mRead) -> PlaneSizes
    ensures { SizesAre file.now.bytes.now result }
{
    PlaneSizes {
        luma: file.luma_size(),
        chroma: file.chroma_size(),
    }
}

// Where the line at a place ends, past its newline.
fn past_line(bytes: &[u8], at: usize) -> usize
    requires { at ≤ length bytes.now }
    ensures place { result ≡ at + (line_end (drop at bytes.now) + 1) }
    ensures upper_bound { result ≤ length bytes.now + 257 }
{
    let end = y4m_line::line_end(shift_file::from_place(bytes, at));
    at + (end.unwrap_or(y4m_line::LINE) + 1)
}

// Where picture k stands; past the last, the end.
fn place_of(file: &Y4mRead, k: usize) -> usize
    requires { k ≤ file.now.count }
    ensures { Stood file.now.bytes.now k result }
{
    let sizes = plane_sizes(file);
    let mut at = past_line(file.bytes, 0);
    // A sum, and no multiple of k: each line FRAME has tags and a length of its own.
    for _ in 0..k {
        at = past_line(file.bytes, at) + sizes.luma + 2 * sizes.chroma;
    }
    at
}

// The planes of a picture.
pub fn picture_parts<'a>(file: &Y4mRead<'a>, k: usize) -> PlaneParts<'a>
    requires { k < file.now.count }
    ensures y { result.y.now ≡ (picture_of (file_in file.now.bytes.now) k).y }
    ensures u { result.u.now ≡ (picture_of (file_in file.now.bytes.now) k).u }
    ensures v { result.v.now ≡ (picture_of (file_in file.now.bytes.now) k).v }
{
    let sizes = plane_sizes(file);
    let y = past_line(file.bytes, place_of(file, k));
    let u = y + sizes.luma;
    let v = u + sizes.chroma;
    PlaneParts {
        y: shift_file::part_of(file.bytes, y, sizes.luma),
        u: shift_file::part_of(file.bytes, u, sizes.chroma),
        v: shift_file::part_of(file.bytes, v, sizes.chroma),
    }
}

// ---- picture k of bytes that are known to have it. RULES 14.5 has each plane be a part of the file, and these promise it of the bytes themselves; each
// is one line over `picture_parts`.

// The planes of picture k of the file that these bytes are.
fn known_parts(file: &[u8], k: usize) -> PlaneParts
    requires { HasPicture file.now k }
    ensures y { result.y.now ≡ (picture_of (file_in file.now) k).y }
    ensures u { result.u.now ≡ (picture_of (file_in file.now) k).u }
    ensures v { result.v.now ≡ (picture_of (file_in file.now) k).v }
{
    let read = Y4mRead::open(file).unwrap();
    picture_parts(&read, k)
}

// Y of a picture, as a part of the file.
pub fn y_part(file: &[u8], k: usize) -> &[u8]
    requires { HasPicture file.now k }
    ensures { result.now ≡ (picture_of (file_in file.now) k).y }
{
    known_parts(file, k).y
}

// The same of U.
pub fn u_part(file: &[u8], k: usize) -> &[u8]
    requires { HasPicture file.now k }
    ensures { result.now ≡ (picture_of (file_in file.now) k).u }
{
    known_parts(file, k).u
}

// The same of V.
pub fn v_part(file: &[u8], k: usize) -> &[u8]
    requires { HasPicture file.now k }
    ensures { result.now ≡ (picture_of (file_in file.now) k).v }
{
    known_parts(file, k).v
}

// ---- numbers

impl PlaneSizes {
    // The six numbers of planes that stand from y on.
    fn numbers(self, y: usize) -> [u64; 6]
        requires { (y ≤ 2 ^ 63) × (self.luma ≤ 2 ^ 33) × (self.chroma ≤ 2 ^ 33) }
        ensures { result ≡ plane_numbers y self.luma self.chroma }
    {
        let luma = self.luma as u64;
        let chroma = self.chroma as u64;
        let y = y as u64;
        let u = y + luma;
        let v = u + chroma;
        [y, luma, u, chroma, v, chroma]
    }
}

// So many entries from a picture on.
fn tell_entries(file: &Y4mRead, first: usize, count: usize, entries: &mut [u64])
    requires pictures { first + count ≤ file.now.count }
    requires room { 6 * count ≤ length entries.old }
    ensures { entries.new ≡ sets entries.old 0 (entries_of (file_in file.now.bytes.now) first count) }
{
    let sizes = plane_sizes(file);
    let mut at = place_of(file, first);
    // The place is carried on from picture to picture, as in `place_of`.
    for i in 0..count {
        let y = past_line(file.bytes, at);
        little_endian::put(entries, ENTRY * i, &sizes.numbers(y));
        at = y + sizes.luma + 2 * sizes.chroma;
    }
}

// What a file's header says, how many pictures it has, and the entries of those from `first` on that have room; or 19 for bytes that are no Y4M file,
// and nothing written.
pub fn read_pictures(file: &[u8], first: usize, entries: &mut [u64]) -> Result<Y4mReading, YuvError>
    ensures { ReadPost file.now first entries.old result entries.new }
{
    let read = Y4mRead::open(file).ok_or(YuvError::MalformedY4m)?;
    let from = first.min(read.count);
    let told = (read.count - from).min(entries.len() / ENTRY);
    tell_entries(&read, from, told, entries);
    Ok(Y4mReading {
        header: read.header,
        count: read.count,
        told,
    })
}
