// The settings of a conversion, under the names of the Rust's yuv_support.rs.
#![tactic(auto)]

mod codes; // settings from numbers, and as numbers

ghost use Rattle.std.specs.Prelude.{◌≡◌};
ghost use Rattle.yuv_support.specs.Channels.{channels_count, r_offset, g_offset, b_offset};
ghost use Rattle.yuv_support.specs.Sampling.{chroma_width, chroma_height};
ghost use Rattle.yuv_support.specs.Range.{yuv_range};
ghost use Rattle.yuv_support.specs.Matrix.{kr_kb, in_half, accepted};

use std::error::Error;
use std::fmt;

// Where the bytes of a pixel stand.
#[derive(Clone, Copy, Debug, PartialEq, Eq, Hash)]
pub enum YuvSourceChannels {
    Rgb,
    Rgba,
    Bgra,
    Bgr,
}

// The rules state the count and each offset by itself, so each is a method: that two of them are alike for some orders is chance.
impl YuvSourceChannels {
    // Bytes a pixel.
    pub fn get_channels_count(self) -> usize
        ensures { result ≡ channels_count self }
    {
        match self {
            YuvSourceChannels::Rgb | YuvSourceChannels::Bgr => 3,
            YuvSourceChannels::Rgba | YuvSourceChannels::Bgra => 4,
        }
    }

    pub fn get_r_channel_offset(self) -> usize
        ensures { result ≡ r_offset self }
    {
        match self {
            YuvSourceChannels::Rgb | YuvSourceChannels::Rgba => 0,
            YuvSourceChannels::Bgra | YuvSourceChannels::Bgr => 2,
        }
    }

    pub fn get_g_channel_offset(self) -> usize
        ensures { result ≡ g_offset self }
    {
        1
    }

    pub fn get_b_channel_offset(self) -> usize
        ensures { result ≡ b_offset self }
    {
        match self {
            YuvSourceChannels::Rgb | YuvSourceChannels::Rgba => 2,
            YuvSourceChannels::Bgra | YuvSourceChannels::Bgr => 0,
        }
    }
}

// How many rows of luma share a row of chroma; columns are always shared by two.
#[derive(Clone, Copy, Debug, PartialEq, Eq, Hash)]
pub enum YuvChromaSubsampling {
    Yuv420,
    Yuv422,
}

impl YuvChromaSubsampling {
    // Chroma rows of a frame of `height` rows.
    pub fn chroma_height(self, height: usize) -> usize
        ensures { result ≡ chroma_height self height }
    {
        match self {
            YuvChromaSubsampling::Yuv420 => height / 2 + height % 2,
            YuvChromaSubsampling::Yuv422 => height,
        }
    }
}

// Chroma bytes of a row of `width` pixels.
pub fn chroma_width(width: usize) -> usize
    ensures { result ≡ chroma_width width }
{
    width / 2 + width % 2
}

#[derive(Clone, Copy, Debug, PartialEq, Eq, Hash)]
pub enum YuvRange {
    Limited,
    Full,
}

// The offsets and spans of a range at 8 bits.
#[derive(Clone, Copy, Debug, PartialEq, Eq, Hash)]
pub struct YuvChromaRange {
    pub bias_y: u8,
    pub bias_uv: u8,
    pub range_y: u8,
    pub range_uv: u8,
}

pub fn get_yuv_range(range: YuvRange) -> YuvChromaRange
    ensures { result ≡ yuv_range range }
{
    match range {
        YuvRange::Limited => YuvChromaRange {
            bias_y: 16,
            bias_uv: 128,
            range_y: 219,
            range_uv: 224,
        },
        YuvRange::Full => YuvChromaRange {
            bias_y: 0,
            bias_uv: 128,
            range_y: 255,
            range_uv: 255,
        },
    }
}

// The matrices; Custom carries kr, then kb.
#[derive(Clone, Copy, Debug, PartialEq)]
pub enum YuvStandardMatrix {
    Bt601,
    Bt709,
    Bt2020,
    Smpte240,
    Bt470_6,
    Fcc,
    Custom(f32, f32),
}

// The weights of red and of blue in luma.
#[derive(Clone, Copy, Debug, PartialEq)]
pub struct YuvBias {
    pub kr: f32,
    pub kb: f32,
}

impl YuvStandardMatrix {
    pub fn get_kr_kb(self) -> YuvBias
        ensures { result ≡ kr_kb self }
    {
        match self {
            YuvStandardMatrix::Bt601 => YuvBias {
                kr: 0.299,
                kb: 0.114,
            },
            YuvStandardMatrix::Bt709 => YuvBias {
                kr: 0.2126,
                kb: 0.0722,
            },
            YuvStandardMatrix::Bt2020 => YuvBias {
                kr: 0.2627,
                kb: 0.0593,
            },
            YuvStandardMatrix::Smpte240 => YuvBias {
                kr: 0.212,
                kb: 0.087,
            },
            YuvStandardMatrix::Bt470_6 => YuvBias {
                kr: 0.2220,
                kb: 0.0713,
            },
            YuvStandardMatrix::Fcc => YuvBias { kr: 0.30, kb: 0.11 },
            YuvStandardMatrix::Custom(kr, kb) => YuvBias { kr, kb },
        }
    }

    // Whether refusal 4 does not hold.
    pub fn is_accepted(self) -> bool
        ensures { result ≡ accepted self }
    {
        match self {
            YuvStandardMatrix::Custom(kr, kb) => in_half(kr) && in_half(kb),
            _ => true,
        }
    }
}

fn in_half(k: f32) -> bool
    ensures { result ≡ in_half k }
{
    k >= 0.0 && k <= 0.5
}

// A number that is the code of no setting of its kind.
#[derive(Clone, Copy, Debug, PartialEq, Eq, Hash)]
pub struct UnknownCode(pub u32);

impl fmt::Display for UnknownCode {
    ghost use Rattle.std.specs.Prelude.{Some};
    ghost use Rattle.yuv_support.specs.Codes.{unknown_text};

    ghost output = { λ unknown. Some (unknown_text unknown.0) };

    fn fmt<W: fmt::Write>(&self, f: &mut fmt::Formatter<W>) -> fmt::Result {
        write!(f, "no setting has code {}", self.0)
    }
}

impl Error for UnknownCode {}
