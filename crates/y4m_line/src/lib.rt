// A line of a Y4M file, a word and tags, each after one space, and what the tags W, H and C of the header's line say (RULES 14.1, 14.2). A line is
// read without its newline. A decimal of any length is read: it is given up where it passes 16,384, so nothing wraps.
#![tactic(auto)]

ghost use Rattle.std.specs.Prelude.{◌≡◌, ◌≤◌, ◌<◌, length, take, IfSome};
ghost use Rattle.std.specs.Option.{unwrap_or};
ghost use Rattle.y4m_line.specs.Words.{upto, words, filled};
ghost use Rattle.y4m_line.specs.Line.{magic, tagged, digit};
ghost use Rattle.y4m_line.specs.Header.{size, code, one_size, one_code, is_line, line_end};
ghost use Rattle.y4m_line.specs.Found.{side_told, sampling_told, TagPost, HeaderPost};

use yuv_support::YuvChromaSubsampling;

// The most bytes of a line, its newline counted.
pub const LINE: usize = 256;

// The most that a side may be.
const MOST_SIDE: usize = 16384;

// The tags that begin with a letter: none, one, by its text after the letter, or more. Three states of their own, since no `None` or `Err` fits two of them:
// no tag of C means 4:2:0 and two are refused, while for W and H both are refused.
#[derive(Clone, Copy, Debug, PartialEq, Eq)]
enum Tag<'a> {
    Missing,
    Once(&'a [u8]),
    Repeated,
}

// What a header's line says. `FrameSize` of `record_difference` has the same three fields, but its sides have 16 bits: a record's sides have as many in its
// file, and a difference between sizes is told of two of them. A line's sides are read from decimals and are lengths of buffers, so they are `usize`.
// No value is both.
#[derive(Clone, Copy, Debug, PartialEq, Eq)]
pub struct HeaderLine {
    pub width: usize,
    pub height: usize,
    pub sampling: YuvChromaSubsampling,
}

// ---- words

// What stands before the first space; all of the line where it has none.
fn first_word(line: &[u8]) -> &[u8]
    ensures { result.now ≡ take (upto 32 line.now) line.now }
{
    line.split(|&byte| byte == b' ').next().unwrap_or(line)
}

// Whether no word is empty.
fn all_filled(line: &[u8]) -> bool
    ensures { result ≡ filled (words line.now) }
{
    line.split(|&byte| byte == b' ')
        .all(|word| !word.is_empty())
}

// Whether this is the first word, and no tag is empty.
pub fn is_line(word: &[u8], line: &[u8]) -> bool
    ensures { result ≡ is_line word.now line.now }
{
    first_word(line) == word && all_filled(line)
}

// The tags that begin with this letter.
fn find_tag(line: &[u8], letter: u8) -> Tag<'_>
    requires { 0 < letter }
    ensures { TagPost letter line.now result }
{
    let mut tags = line
        .split(|&byte| byte == b' ')
        .filter(|word| word.first() == Some(&letter));
    let Some(tag) = tags.next() else {
        return Tag::Missing;
    };
    match tags.next() {
        None => Tag::Once(&tag[1..]),
        Some(_) => Tag::Repeated,
    }
}

// ---- sides

// What a byte says as a digit.
fn digit(byte: u8) -> Option<u32>
    ensures value { unwrap_or result 10 ≡ digit byte }
    ensures upper_bound { IfSome result (λ value. value ≤ 9) }
{
    (byte as char).to_digit(10)
}

// The side that a text says, 1 to 16,384. `str::parse` also takes a sign and leading zeros, and wants text of UTF-8: the tests before and after it would be
// no shorter than this loop.
#[tactic(auto, using(crate::proofs::Decimal::size_empty, crate::proofs::Decimal::size_zero))]
fn size_text(text: &[u8]) -> Option<usize>
    ensures { result ≡ side_told (size text.now) }
{
    if text.is_empty() || text[0] == b'0' {
        return None;
    }
    let mut side = 0;
    for &byte in text {
        side = side * 10 + digit(byte)? as usize;
        if MOST_SIDE < side {
            return None;
        }
    }
    Some(side)
}

// The side that the one tag of a letter says; none where there is none, or more than one.
fn one_size(line: &[u8], letter: u8) -> Option<usize>
    requires { 0 < letter }
    ensures { result ≡ side_told (one_size (tagged letter (words line.now))) }
{
    match find_tag(line, letter) {
        Tag::Once(text) => size_text(text),
        Tag::Missing | Tag::Repeated => None,
    }
}

// ---- samplings

// The sampling that a text says.
#[tactic(auto, using(crate::proofs::Header::sampling_is))]
fn sampling_text(text: &[u8]) -> Option<YuvChromaSubsampling>
    ensures { result ≡ sampling_told (code text.now) }
{
    if text == b"420".as_slice()
        || text == b"420jpeg".as_slice()
        || text == b"420mpeg2".as_slice()
    {
        Some(YuvChromaSubsampling::Yuv420)
    } else if text == b"422".as_slice() {
        Some(YuvChromaSubsampling::Yuv422)
    } else {
        None
    }
}

// The same of the tag of C: none means 4:2:0, and of more than one none is read.
fn one_sampling(line: &[u8]) -> Option<YuvChromaSubsampling>
    ensures { result ≡ sampling_told (one_code (tagged 67 (words line.now))) }
{
    match find_tag(line, b'C') {
        Tag::Missing => Some(YuvChromaSubsampling::Yuv420),
        Tag::Once(text) => sampling_text(text),
        Tag::Repeated => None,
    }
}

// ---- a header, and the line at the front of bytes

fn starts_stream(line: &[u8]) -> bool
    ensures { result ≡ is_line magic line.now }
{
    is_line(b"YUV4MPEG2", line)
}

// What a line says as a header: W and H once each, C at most once.
pub fn read_header(line: &[u8]) -> Option<HeaderLine>
    ensures { HeaderPost line.now result }
{
    if !starts_stream(line) {
        return None;
    }
    let width = one_size(line, b'W')?;
    let height = one_size(line, b'H')?;
    let sampling = one_sampling(line)?;
    Some(HeaderLine {
        width,
        height,
        sampling,
    })
}

// Where the first line's newline stands; none where the first 256 bytes have none.
pub fn line_end(bytes: &[u8]) -> Option<usize>
    ensures value { unwrap_or result 256 ≡ line_end bytes.now }
    ensures upper_bound { IfSome result (λ end. (end < 256) × (end < length bytes.now)) }
{
    bytes[..bytes.len().min(LINE)]
        .iter()
        .position(|&byte| byte == b'\n')
}
