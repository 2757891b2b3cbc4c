// Parts of a lent buffer, by offset and length: whether one ends within its buffer, and whether two share a byte. No sum is made, since
// offset + length may pass 2^64.
#![tactic(auto)]

ghost use Rattle.std.specs.Prelude.{◌≡◌};
ghost use Rattle.buffer_parts.specs.Parts.{is_inside, are_overlapping};

// `length` bytes of a buffer, from byte `offset` on: any two numbers of a caller, where `ShiftEntry` of `shift_reader` is what a checked file says.
#[derive(Clone, Copy, Debug, PartialEq, Eq)]
pub struct BufferPart {
    pub offset: usize,
    pub length: usize,
}

impl BufferPart {
    // Whether a part ends within a buffer of `len` bytes; one past the end does not, even with no bytes.
    pub fn is_inside(self, len: usize) -> bool
        ensures { result ≡ is_inside self len }
    {
        len.checked_sub(self.offset)
            .is_some_and(|rest| self.length <= rest)
    }

    // Whether two parts of one buffer share a byte. Parts that touch do not, and one of no bytes does with none.
    pub fn overlaps(self, other: BufferPart) -> bool
        ensures { result ≡ are_overlapping self other }
    {
        if self.offset <= other.offset {
            other.offset - self.offset < self.length && 0 < other.length
        } else {
            self.offset - other.offset < other.length && 0 < self.length
        }
    }
}
