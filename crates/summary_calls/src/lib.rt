// The calls of a shift file's summary: building, checking and looking up (RULES 12.4 to 12.6). Each is given a form and bytes that need not be a file of
// it: they come together as a `ShiftFile` once the check let them through.
#![tactic(auto)]

ghost use Rattle.std.specs.Prelude.{◌≡◌};
ghost use Rattle.shift_file.specs.Read.{records_in};
ghost use Rattle.summary_calls.specs.Found.{found_among};
ghost use Rattle.summary_calls.specs.Calls.{BuildPost, CheckPost, FindPost};

use shift_file::ShiftForm;
use shift_reader::file::ShiftFile;
use summary_entry::ENTRY;
use yuv_error::YuvError;

// Writes a file's summary, or refuses bytes that are no file (15) and room that is too short (17), and writes nothing. The form is what the caller asks of the
// bytes; a struct of both would be made for this call, or for one of those below, and taken apart by `ShiftFile::open`, which makes what carries them on.
pub fn build_summary(form: ShiftForm, file: &[u8], summary: &mut [u8]) -> Result<(), YuvError>
    ensures { BuildPost form file.now summary.old result summary.new }
{
    let records = ShiftFile::open(form, file)?;
    if summary.len() < ENTRY * records.count {
        return Err(YuvError::SummaryMismatch);
    }
    shift_summary::write_summary(&records, summary);
    Ok(())
}

// Whether what is lent starts with a summary of the file; or refuses bytes that are no file (15).
pub fn check_summary(form: ShiftForm, file: &[u8], summary: &[u8]) -> Result<bool, YuvError>
    ensures { CheckPost form file.now summary.now result }
{
    let file = ShiftFile::open(form, file)?;
    Ok(summary_check::is_summary(&file, summary))
}

// The first record of a crossing. The check before it has read every luma byte, so a walk through the headers is nothing beside it.
fn first_of(file: &ShiftFile, crossing: u32) -> Option<usize>
    ensures { result ≡ found_among crossing (records_in file.now.form file.now.bytes.now) }
{
    // A `for` loop: by `find` over the places the proof did not close.
    for k in 0..file.count {
        if file.record(k).entry().crossing == crossing {
            return Some(k);
        }
    }
    None
}

// The record of a crossing, by its number from 0, the first by offset if several, or that there is none; or refuses bytes that are no file (15) and a
// summary that is not the file's (17).
pub fn find_record(
    form: ShiftForm,
    file: &[u8],
    summary: &[u8],
    crossing: u32,
) -> Result<Option<usize>, YuvError>
    ensures { FindPost form file.now summary.now crossing result }
{
    let file = ShiftFile::open(form, file)?;
    if summary_check::is_summary(&file, summary) {
        Ok(first_of(&file, crossing))
    } else {
        Err(YuvError::SummaryMismatch)
    }
}
