// Two shift files paired, the k-th record of a crossing in ours with the k-th in theirs, and the report of their pairs (RULES 13.1 to 13.4).
// The order is made in the call: two arrays of 4,096 keys are all the room it takes, 64 KiB of stack, and no heap.
#![tactic(auto)]

ghost use Rattle.std.specs.Prelude.{◌≡◌, ◌+◌, ◌<◌};
ghost use Rattle.shift_pairs.specs.Report.{report_of};
ghost use Rattle.shift_pairs.specs.Pairing.{files_of, PairingPost};
ghost use Rattle.shift_pairs.specs.Known.{OneMore};

use crossing_keys::{Key, OrderedFile};
use record_difference::Difference;
use shift_file::ShiftForm;
use shift_reader::file::{FileRecord, ShiftFile};
use yuv_error::YuvError;

// A pair that differs, by the places of its records in their files, from 0.
#[derive(Clone, Copy, Debug, PartialEq, Eq)]
pub struct DifferingPair {
    pub crossing: u32,
    pub ours: usize,
    pub theirs: usize,
    pub difference: Difference,
}

// How many pairs are equal and how many differ, how many records are in no pair, and the first pair that differs, if one does.
#[derive(Clone, Copy, Debug, PartialEq, Eq)]
pub struct PairReport {
    pub equal: usize,
    pub differing: usize,
    pub only_ours: usize,
    pub only_theirs: usize,
    pub first: Option<DifferingPair>,
}

// The one of the two files that is no shift file. It has no Display and no Error: it passes between crates, C is told its number, and nothing prints it.
#[derive(Clone, Copy, Debug, PartialEq, Eq)]
pub enum BrokenFile {
    Ours,
    Theirs,
}

// 1 and 2, as C is told them.
impl From<BrokenFile> for u32 {
    ghost use Rattle.std.specs.Prelude.{◌≡◌};
    ghost use Rattle.shift_pairs.specs.Pairing.{broken_number};

    ghost from_gives = { λ broken number. number ≡ broken_number broken };

    fn from(broken: BrokenFile) -> u32 {
        match broken {
            BrokenFile::Ours => 1,
            BrokenFile::Theirs => 2,
        }
    }
}

// 15, of either file.
impl From<BrokenFile> for YuvError {
    ghost use Rattle.std.specs.Prelude.{◌≡◌};
    ghost use Rattle.yuv_error.specs.declared.YuvError.TheVariants.{MalformedShiftFile};

    ghost from_gives = { λ broken error. error ≡ MalformedShiftFile };

    fn from(_broken: BrokenFile) -> YuvError {
        YuvError::MalformedShiftFile
    }
}

// The pairs so far.
#[derive(Clone, Copy)]
struct Tally {
    equal: usize,
    differing: usize,
    first: Option<DifferingPair>,
}

// One pair more, a record of ours with one of theirs: here they are compared.
fn with_pair(tally: Tally, ours: &FileRecord, theirs: &FileRecord) -> Tally
    requires { tally.equal + tally.differing < 4096 }
    ensures { OneMore (files_of ours.now.file.form ours.now.file.bytes.now theirs.now.file.form theirs.now.file.bytes.now)
        (record { ours = ours.now.k; theirs = theirs.now.k }) tally result }
{
    let Some(difference) = record_difference::compare_records(ours, theirs) else {
        return Tally {
            equal: tally.equal + 1,
            ..tally
        };
    };
    let differing = tally.differing + 1;
    if tally.differing != 0 {
        return Tally { differing, ..tally };
    }
    let entry = ours.entry();
    Tally {
        equal: tally.equal,
        differing,
        first: Some(DifferingPair {
            crossing: entry.crossing,
            ours: ours.k,
            theirs: theirs.k,
            difference,
        }),
    }
}

// The report of two files by the sorted keys of their records: a walk over both, where equal crossings make a pair.
#[tactic(auto, using(crossing_keys::proofs::Places::record_named))]
fn pair_keys(ours: &OrderedFile, theirs: &OrderedFile) -> PairReport
    ensures { result ≡ report_of (files_of ours.now.file.form ours.now.file.bytes.now theirs.now.file.form theirs.now.file.bytes.now) }
{
    let a = ours.keys;
    let b = theirs.keys;
    let mut tally = Tally {
        equal: 0,
        differing: 0,
        first: None,
    };
    let mut i = 0;
    let mut j = 0;
    // A while loop: a turn goes on in one list or in both, which no iterator of one of them says.
    while i < a.len() {
        if j == b.len() {
            break;
        }
        let x = a[i];
        let y = b[j];
        let our_crossing = x.crossing();
        let their_crossing = y.crossing();
        if our_crossing < their_crossing {
            i += 1;
        } else if their_crossing < our_crossing {
            j += 1;
        } else {
            let our_record = ours.file.record(x.place());
            let their_record = theirs.file.record(y.place());
            tally = with_pair(tally, &our_record, &their_record);
            i += 1;
            j += 1;
        }
    }
    let pairs = tally.equal + tally.differing;
    PairReport {
        equal: tally.equal,
        differing: tally.differing,
        only_ours: a.len() - pairs,
        only_theirs: b.len() - pairs,
        first: tally.first,
    }
}

// The report of our shift and theirs; or which of the two is no shift file, ours first. Form and bytes are two parameters here: whether they are a file
// is what is asked.
pub fn pair_files(
    our_form: ShiftForm,
    ours: &[u8],
    their_form: ShiftForm,
    theirs: &[u8],
) -> Result<PairReport, BrokenFile>
    ensures { PairingPost our_form ours.now their_form theirs.now result }
{
    let ours = ShiftFile::open(our_form, ours).map_err(|_| BrokenFile::Ours)?;
    let theirs = ShiftFile::open(their_form, theirs).map_err(|_| BrokenFile::Theirs)?;
    // No heap is used, so the room for a key of each record of two whole files is on the stack.
    let mut our_room = [Key(0); 4096];
    let mut their_room = [Key(0); 4096];
    let ours = OrderedFile::sorted(&ours, &mut our_room);
    let theirs = OrderedFile::sorted(&theirs, &mut their_room);
    Ok(pair_keys(&ours, &theirs))
}
