// Where two planes of one size differ first (RULES 13.3). Equal rows are passed eight bytes a step; only in the first row that is not equal are single
// bytes looked at.
#![tactic(auto)]

ghost use Rattle.std.specs.Prelude.{◌≡◌, ◌*◌, ◌≤◌, leb, length};
ghost use Rattle.plane_difference.specs.Difference.{equal_front, plane_difference};

// The bytes of a step: a number of 64 bits, which the compiler reads in one load.
const WORD: usize = 8;

// Whether the planes are equal up to `end`, where they are up to `from`: eight bytes a step, and the tail by bytes.
fn is_row_equal(ours: &[u8], theirs: &[u8], from: usize, end: usize) -> bool
    requires { (from ≤ end) × (end ≤ length ours.now) × (end ≤ length theirs.now) × (from ≤ equal_front ours.now theirs.now) }
    ensures { result ≡ leb end (equal_front ours.now theirs.now) }
{
    // By number, and not by a place that is carried on: one count is then all that a turn changes. `chunks_exact` of both rows, zipped, is no plainer: two
    // iterators and two remainders stand there for one place.
    let words = (end - from) / WORD;
    for k in 0..words {
        let at = from + WORD * k;
        if little_endian::read_u64(ours, at) != little_endian::read_u64(theirs, at) {
            return false;
        }
    }
    for at in from + WORD * words..end {
        if ours[at] != theirs[at] {
            return false;
        }
    }
    true
}

// The rows that are equal, up to the first that is not.
fn equal_rows(ours: &[u8], theirs: &[u8], width: usize, height: usize) -> usize
    requires { (length ours.now ≡ width * height) × (length theirs.now ≡ width * height) }
    ensures { (result ≤ height) × (width * result ≤ equal_front ours.now theirs.now) }
{
    // A `for` loop: by `find` over the rows the proof did not close, as the closure knows no bound of its row.
    for row in 0..height {
        let at = width * row;
        if !is_row_equal(ours, theirs, at, at + width) {
            return row;
        }
    }
    height
}

// Row and column, from 0, of the first byte that differs, row by row: the scan stops there.
pub fn compare_planes(
    ours: &[u8],
    theirs: &[u8],
    width: usize,
    height: usize,
) -> Option<(usize, usize)>
    requires { (length ours.now ≡ width * height) × (length theirs.now ≡ width * height) }
    ensures { result ≡ plane_difference width ours.now theirs.now }
{
    let mut found = None;
    // Nested loops left by a label: the form that the project names (docs/PROMISES.md, E6.4).
    'rows: for row in equal_rows(ours, theirs, width, height)..height {
        let at = width * row;
        for column in 0..width {
            if ours[at + column] != theirs[at + column] {
                found = Some((row, column));
                break 'rows;
            }
        }
    }
    found
}
