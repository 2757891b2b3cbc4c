// The summary of a shift file: its entries in order (RULES 12.1 to 12.4). Entries are put in order by keys, so that one array of 4,096 keys is all the
// room it takes: 32 KiB of stack, and no heap.
#![tactic(auto)]

ghost use Rattle.std.specs.Prelude.{◌≡◌, ◌*◌, ◌≤◌, length, get_or};
ghost use Rattle.std.proofs.lemmas.List.Edits.{sets};
ghost use Rattle.summary_entry.specs.Entry.{no_entry};
ghost use Rattle.shift_file.specs.Read.{records_in};
ghost use Rattle.shift_summary.specs.Summary.{entries_of};
ghost use Rattle.shift_summary.specs.Built.{summary_of};

use crossing_keys::{Key, OrderedFile};
use shift_reader::file::{FileRecord, ShiftFile};
use summary_entry::{ENTRY, SummaryEntry};

// The entry of a record.
pub fn entry_at(file_record: &FileRecord) -> SummaryEntry
    ensures { result ≡ get_or (entries_of file_record.now.file.form (records_in file_record.now.file.form file_record.now.file.bytes.now)) file_record.now.k no_entry }
{
    let entry = file_record.entry();
    SummaryEntry {
        crossing: entry.crossing,
        offset: entry.offset as u64,
        mean: luma_mean::mean_luma(file_record.planes().y),
    }
}

// The entries in order.
#[tactic(auto, using(crossing_keys::proofs::Places::record_named))]
fn write_entries(ordered: &OrderedFile, summary: &mut [u8])
    requires { 13 * length ordered.now.keys.now ≤ length summary.old }
    ensures { summary.new
        ≡ sets summary.old 0 (summary_of ordered.now.file.form (records_in ordered.now.file.form ordered.now.file.bytes.now)) }
{
    let keys = ordered.keys;
    for (i, key) in keys.iter().enumerate() {
        let place = key.place();
        let entry = entry_at(&ordered.file.record(place));
        summary_entry::write_entry(summary, ENTRY * i, entry);
    }
}

// The summary of a file, at the start of what is lent for it.
pub fn write_summary(file: &ShiftFile, summary: &mut [u8])
    requires { 13 * file.now.count ≤ length summary.old }
    ensures { summary.new ≡ sets summary.old 0 (summary_of file.now.form (records_in file.now.form file.now.bytes.now)) }
{
    // No heap is used, so the room for a key of each record of a whole file is on the stack.
    let mut room = [Key(0); 4096];
    let ordered = OrderedFile::sorted(file, &mut room);
    write_entries(&ordered, summary);
}
