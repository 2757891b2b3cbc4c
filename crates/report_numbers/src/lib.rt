// The report of two shift files as eighteen numbers, for those who link the library (RULES 10.7).
#![tactic(auto)]

ghost use Rattle.std.specs.Prelude.{◌≡◌};
ghost use Rattle.report_numbers.specs.Numbers.{first_numbers, report_numbers, pairing_numbers};

use record_difference::Difference;
use shift_pairs::{BrokenFile, DifferingPair, PairReport};

// The kind of the first difference, the crossing of its pair and the places of its records; width and height of ours and of theirs; plane, row and
// column; the samplings of ours and of theirs; 0. What a kind has no number of is 0, and all are where no pair differs. No `From`: an option and an array are
// of another crate.
fn first_numbers(first: Option<DifferingPair>) -> [u64; 14]
    ensures { result ≡ first_numbers first }
{
    let Some(pair) = first else {
        return [0; 14];
    };
    match pair.difference {
        Difference::Sizes(ours, theirs) => [
            1,
            u64::from(pair.crossing),
            pair.ours as u64,
            pair.theirs as u64,
            u64::from(ours.width),
            u64::from(ours.height),
            u64::from(theirs.width),
            u64::from(theirs.height),
            0,
            0,
            0,
            u64::from(u32::from(ours.sampling)),
            u64::from(u32::from(theirs.sampling)),
            0,
        ],
        Difference::At(place) => [
            2,
            u64::from(pair.crossing),
            pair.ours as u64,
            pair.theirs as u64,
            0,
            0,
            0,
            0,
            u64::from(place.plane),
            place.row as u64,
            place.column as u64,
            0,
            0,
            0,
        ],
    }
}

// Equal, differing, only ours, only theirs; then the numbers of the first pair that differs.
fn tell_report(report: PairReport, numbers: &mut [u64; 18])
    ensures { numbers.new ≡ report_numbers report }
{
    let counts = [
        report.equal as u64,
        report.differing as u64,
        report.only_ours as u64,
        report.only_theirs as u64,
    ];
    let first = first_numbers(report.first);
    numbers[..4].copy_from_slice(&counts);
    numbers[4..].copy_from_slice(&first);
}

// The report's numbers; none where the pairing was refused.
pub fn tell_pairing(pairing: Result<PairReport, BrokenFile>, numbers: &mut [u64; 18])
    ensures { numbers.new ≡ pairing_numbers pairing numbers.old }
{
    if let Ok(report) = pairing {
        tell_report(report, numbers);
    }
}
