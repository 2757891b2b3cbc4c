// The weights of luma as whole numbers.
ghost use Rattle.std.specs.Prelude.{◌+◌, ◌*◌, ◌<◌};

// The weights of luma, none of which is negative, and what it starts from. Every luma is a byte.
#[derive(Clone, Copy, Debug, PartialEq, Eq, Hash)]
pub struct LumaWeights {
    pub r: u64,
    pub g: u64,
    pub b: u64,
    pub start: u64,
    ghost byte_luma: { 255 * (r + g + b) + start < 256 * 8192 },
}
