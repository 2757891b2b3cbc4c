// The frame of a record: its size, and its planes without padding (RULES 11.2).

ghost use Rattle.std.specs.Prelude.{◌≡◌, ◌*◌, length};
ghost use Rattle.record_difference.specs.declared.Plane.{Plane};
ghost use Rattle.record_difference.specs.Record.{pick, plane_width, plane_height};

use crate::{FrameSize, Plane};
use shift_reader::file::FileRecord;

// Three planes of one frame, each as long as the frame's size says.
#[derive(Clone, Copy)]
pub struct Frame<'a> {
    pub size: FrameSize,
    pub y: &'a [u8],
    pub u: &'a [u8],
    pub v: &'a [u8],
    ghost fits: { (plane : Plane) → length (pick plane y.now u.now v.now) ≡ plane_width plane size * plane_height plane size },
}

impl<'a> Frame<'a> {
    ghost use Rattle.std.specs.Prelude.{◌≡◌};
    ghost use Rattle.shift_reader.specs.Known.{record_in};
    ghost use Rattle.record_difference.specs.declared.Plane.{Plane};
    ghost use Rattle.record_difference.specs.Record.{size_of, plane_of, pick};

    // The frame of a record.
    pub fn of(file_record: &FileRecord<'a>) -> Frame<'a>
        ensures size { result.size ≡ size_of file_record.now.file.form (record_in file_record.now) }
        ensures planes { (plane : Plane) → pick plane result.y.now result.u.now result.v.now ≡ plane_of plane (record_in file_record.now) }
    {
        let entry = file_record.entry();
        let size = FrameSize {
            width: entry.width,
            height: entry.height,
            sampling: shift_file::sampling_at(file_record.file.form, file_record.bytes()),
        };
        let planes = file_record.planes();
        Frame {
            size,
            y: planes.y,
            u: planes.u,
            v: planes.v,
        }
    }

    // A match, and no array of three planes: an array would be asked by a plane's number, which takes the same match.
    pub fn plane(&self, plane: Plane) -> &'a [u8]
        ensures { result.now ≡ pick plane self.now.y.now self.now.u.now self.now.v.now }
    {
        match plane {
            Plane::Y => self.y,
            Plane::U => self.u,
            Plane::V => self.v,
        }
    }
}
