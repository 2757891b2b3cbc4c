// The difference of two records of shift files: their sizes, or else the first unequal byte of their planes (RULES 13.2, 13.3).
#![tactic(auto)]

ghost use Rattle.std.specs.Prelude.{◌≡◌, ◌<◌};
ghost use Rattle.shift_reader.specs.Known.{record_in};
ghost use Rattle.plane_difference.specs.Difference.{plane_difference};
ghost use Rattle.record_difference.specs.Record.{pick, plane_width, plane_height, plane_number, record_difference};

mod frame; // the frame of a record

use frame::Frame;
use shift_reader::file::FileRecord;
use yuv_support::YuvChromaSubsampling;

// A plane of a frame.
#[derive(Clone, Copy, Debug, PartialEq, Eq)]
pub enum Plane {
    Y,
    U,
    V,
}

// 0, 1, 2.
impl From<Plane> for u64 {
    ghost use Rattle.std.specs.Prelude.{◌≡◌};
    ghost use Rattle.record_difference.specs.Record.{plane_number};

    ghost from_gives = { λ plane number. number ≡ plane_number plane };

    fn from(plane: Plane) -> u64 {
        match plane {
            Plane::Y => 0,
            Plane::U => 1,
            Plane::V => 2,
        }
    }
}

// What two frames must have in common before their planes are compared. `HeaderLine` of `y4m_line` has the same fields: what a line says, as `usize`.
#[derive(Clone, Copy, Debug, PartialEq, Eq)]
pub struct FrameSize {
    pub width: u16,
    pub height: u16,
    pub sampling: YuvChromaSubsampling,
}

// A byte of a frame's planes: row and column from 0.
#[derive(Clone, Copy, Debug, PartialEq, Eq)]
pub struct PlanePlace {
    pub plane: Plane,
    pub row: usize,
    pub column: usize,
}

// How two records differ: the two sizes, or the first unequal byte. No Option or Result: neither case means that something is missing.
#[derive(Clone, Copy, Debug, PartialEq, Eq)]
pub enum Difference {
    Sizes(FrameSize, FrameSize),
    At(PlanePlace),
}

impl FrameSize {
    // The bytes of a row of a plane.
    fn plane_width(self, plane: Plane) -> usize
        ensures { result ≡ plane_width plane self }
    {
        let width = self.width as usize;
        match plane {
            Plane::Y => width,
            Plane::U | Plane::V => yuv_support::chroma_width(width),
        }
    }

    // Its rows.
    fn plane_height(self, plane: Plane) -> usize
        ensures { result ≡ plane_height plane self }
    {
        let height = self.height as usize;
        match plane {
            Plane::Y => height,
            Plane::U | Plane::V => self.sampling.chroma_height(height),
        }
    }
}

// Row and column of the first unequal byte of a plane of two frames of one size.
fn compare_plane(plane: Plane, ours: &Frame, theirs: &Frame) -> Option<(usize, usize)>
    requires { ours.now.size ≡ theirs.now.size }
    ensures { result ≡ plane_difference (plane_width plane ours.now.size) (pick plane ours.now.y.now ours.now.u.now ours.now.v.now)
        (pick plane theirs.now.y.now theirs.now.u.now theirs.now.v.now) }
{
    plane_difference::compare_planes(
        ours.plane(plane),
        theirs.plane(plane),
        ours.size.plane_width(plane),
        ours.size.plane_height(plane),
    )
}

// The difference of a record of ours and one of theirs, or none. No plane after the first unequal byte is looked at.
pub fn compare_records(ours: &FileRecord, theirs: &FileRecord) -> Option<Difference>
    ensures { result ≡ record_difference ours.now.file.form (record_in ours.now) theirs.now.file.form (record_in theirs.now) }
{
    let a = Frame::of(ours);
    let b = Frame::of(theirs);
    if a.size != b.size {
        return Some(Difference::Sizes(a.size, b.size));
    }
    for plane in [Plane::Y, Plane::U, Plane::V] {
        if let Some((row, column)) = compare_plane(plane, &a, &b) {
            return Some(Difference::At(PlanePlace { plane, row, column }));
        }
    }
    None
}
