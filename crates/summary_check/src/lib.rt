// The check of a summary (RULES 12.5): entry by entry with those of the file in order.
#![tactic(auto)]

ghost use Rattle.std.specs.Prelude.{◌≡◌, ◌*◌, ◌≤◌, length};
ghost use Rattle.summary_entry.specs.Entry.{entries_in};
ghost use Rattle.shift_file.specs.Read.{records_in};
ghost use Rattle.summary_check.specs.Check.{are_entries, is_summary};

use crossing_keys::{Key, OrderedFile};
use shift_reader::file::ShiftFile;
use summary_entry::ENTRY;

// Whether the entries are those of the file in order, one after the other.
#[tactic(auto, using(crossing_keys::proofs::Places::record_named))]
fn are_those(ordered: &OrderedFile, summary: &[u8]) -> bool
    requires { 13 * length ordered.now.keys.now ≤ length summary.now }
    ensures { result ≡ are_entries ordered.now.file.form (records_in ordered.now.file.form ordered.now.file.bytes.now)
        (entries_in (length ordered.now.keys.now) summary.now) }
{
    let keys = ordered.keys;
    // A `for` loop: by `all` the proof did not close, as the closure knows no bound of its place.
    for (i, key) in keys.iter().enumerate() {
        let entry = summary_entry::read_entry(summary, ENTRY * i);
        let place = key.place();
        let of_file = shift_summary::entry_at(&ordered.file.record(place));
        if !entry.is_same(of_file) {
            return false;
        }
    }
    true
}

// Whether what is lent starts with a summary of the file.
pub fn is_summary(file: &ShiftFile, summary: &[u8]) -> bool
    ensures { result ≡ is_summary file.now.form (records_in file.now.form file.now.bytes.now) summary.now }
{
    if summary.len() < ENTRY * file.count {
        return false;
    }
    // No heap is used, so the room for a key of each record of a whole file is on the stack.
    let mut room = [Key(0); 4096];
    let ordered = OrderedFile::sorted(file, &mut room);
    are_those(&ordered, summary)
}
