// A summary after one record more at the file's end (RULES 12.7). The grown file is not there yet and is never touched. The call is given form and bytes:
// whether they are a file is what it asks first.
#![tactic(auto)]

ghost use Rattle.std.specs.Prelude.{◌≡◌, true};
ghost use Rattle.shift_file.specs.Read.{record_at};
ghost use Rattle.shift_file.specs.Check.{record_stands};
ghost use Rattle.summary_update.specs.Update.{is_record, may_grow, may_take, new_entry, UpdatePost};

use shift_file::ShiftForm;
use shift_file::part::Part;
use shift_reader::file::ShiftFile;
use summary_entry::{ENTRY, SummaryEntry};
use yuv_error::YuvError;

// The bytes of a pair.
const PAIR: u64 = 12;

// Whether these bytes are one whole record.
#[tactic(auto, unfolding(crate::specs::Update::is_record, shift_file::specs::Check::size_standing))]
fn is_record(form: ShiftForm, added: &[u8]) -> bool
    ensures { result ≡ is_record form added.now }
{
    shift_file::size_standing(form, added) == Some(added.len())
}

// Whether a file may grow by a record.
#[tactic(auto, unfolding(crate::specs::Update::may_grow), using(crossing_keys::proofs::Places::records_counted))]
fn may_grow(file: &ShiftFile, added: &[u8]) -> bool
    ensures { result ≡ may_grow file.now.form file.now.bytes.now added.now }
{
    is_record(file.form, added) && file.count < shift_file::MOST_RECORDS as usize
}

// Whether what is lent starts with a summary of the file, and has room for one entry more.
#[tactic(auto, using(crossing_keys::proofs::Places::records_counted))]
fn may_take(file: &ShiftFile, summary: &[u8]) -> bool
    ensures { result ≡ may_take file.now.form file.now.bytes.now summary.now }
{
    ENTRY * (file.count + 1) <= summary.len() && summary_check::is_summary(file, summary)
}

// The luma plane of a record.
fn luma_of<'a>(record: &Part<'a>) -> &'a [u8]
    requires { record_stands «record».now.form «record».now.bytes.now ≡ true }
    ensures { result.now ≡ (record_at «record».now.form «record».now.bytes.now).y }
{
    shift_file::part_of(record.bytes, record.form.header_size(), record.luma_size())
}

fn new_entry(file: &ShiftFile, added: &[u8]) -> SummaryEntry
    requires { may_grow file.now.form file.now.bytes.now added.now ≡ true }
    ensures { result ≡ new_entry file.now.form file.now.bytes.now added.now }
{
    let record = Part {
        form: file.form,
        bytes: added,
    };
    let luma = luma_of(&record);
    SummaryEntry {
        crossing: record.crossing(),
        offset: file.bytes.len() as u64 + PAIR,
        mean: luma_mean::mean_luma(luma),
    }
}

// Rewrites a file's summary as that of the file with one record more at its end; or refuses what is no file, no record or no longer a file with it
// (15), then room for one entry too few and what is no summary of the file (17), and writes nothing.
#[tactic(auto, unfolding(crate::specs::Update::may_grow))]
pub fn update_summary(
    form: ShiftForm,
    file: &[u8],
    added: &[u8],
    summary: &mut [u8],
) -> Result<(), YuvError>
    ensures { UpdatePost form file.now added.now summary.old result summary.new }
{
    let file = ShiftFile::open(form, file)?;
    if !may_grow(&file, added) {
        return Err(YuvError::MalformedShiftFile);
    }
    if !may_take(&file, summary) {
        return Err(YuvError::SummaryMismatch);
    }
    let entry = new_entry(&file, added);
    summary_entry::place_entry(summary, file.count, entry);
    Ok(())
}
