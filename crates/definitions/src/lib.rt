// What a frame is converted by: its settings and its description, and where its pixels stand in a source. The meaning of its planes stands in specs/.
#![tactic(auto)]

ghost use Rattle.std.specs.Prelude.{◌≡◌, ◌≤◌, ◌<◌};
ghost use Rattle.definitions.specs.Image.{row_size, row_start};

use sharp_gamma::{SharpYuvGammaTransfer, TableRounding};
use yuv_support::{YuvChromaSubsampling, YuvRange, YuvSourceChannels, YuvStandardMatrix};

// How a frame is converted: travels as one value.
#[derive(Clone, Copy, Debug, PartialEq)]
pub struct YuvSettings {
    pub channels: YuvSourceChannels,
    pub sampling: YuvChromaSubsampling,
    pub range: YuvRange,
    pub matrix: YuvStandardMatrix,
    pub transfer: SharpYuvGammaTransfer,
    pub rounding: TableRounding,
}

// Where a frame stands in a larger source: its first column and row, and the source's size.
#[derive(Clone, Copy, Debug, PartialEq, Eq, Hash)]
pub struct Window {
    pub left: u32,
    pub top: u32,
    pub source_width: u32,
    pub source_height: u32,
}

// A frame's size, its place in its source, settings and plane strides: what an opening fixes and a frame call is given.
#[derive(Clone, Copy, Debug, PartialEq)]
pub struct FrameDescription {
    pub width: u32,
    pub height: u32,
    pub window: Window,
    pub settings: YuvSettings,
    pub y_stride: u32,
    pub u_stride: u32,
    pub v_stride: u32,
}

// A band of a frame: `rows` rows after the first `done`, `stride` bytes apart in their source, which has its full width.
#[derive(Clone, Copy, Debug, PartialEq)]
pub struct Band {
    pub frame: FrameDescription,
    pub done: u32,
    pub rows: u32,
    pub stride: u32,
}

// The bytes of a frame's pixels in a row of its source.
pub fn row_size(frame: FrameDescription) -> usize
    requires { frame.width ≤ 16384 }
    ensures { result ≡ row_size frame }
{
    frame.width as usize * frame.settings.channels.get_channels_count()
}

// Where they start in a row of rows `stride` bytes apart.
pub fn row_start(frame: FrameDescription, row: usize, stride: usize) -> usize
    requires left_bound { frame.window.left ≤ 16384 }
    requires row_bound { row_start frame stride row < 18446744073709551616 }
    ensures { result ≡ row_start frame stride row }
{
    let count = frame.settings.channels.get_channels_count();
    row * stride + frame.window.left as usize * count
}
