// The calls on shift files and their summaries, and the pairing of two files, for callers without enums and structs: the form is that of the file, and
// what is told goes to numbers that the caller lends.
#![tactic(auto)]

ghost use Rattle.std.specs.Prelude.{◌≡◌, ◌≤◌, [], ◌∷◌, length};
ghost use Rattle.yuv_error.specs.Numbers.{numbers_of};
ghost use Rattle.yuv_error.specs.Lent.{taken};
ghost use Rattle.shift_reader.specs.Reading.{read_outcome, reading_of};
ghost use Rattle.shift_writer.specs.Output.{outcome_of, size_of};
ghost use Rattle.summary_calls.specs.Calls.{outcome, says_yes, found_in};
ghost use Rattle.shift_pairs.specs.Pairing.{pairing_outcome, broken_told};
ghost use Rattle.shift_calls.specs.Summary.{exported_build, BuildKept, exported_check, as_number, CheckKept};
ghost use Rattle.shift_calls.specs.Summary.{exported_find, found_count, found_place, FindKept, exported_update, UpdateKept};
ghost use Rattle.shift_calls.specs.Pairs.{exported_pairing, PairingKept};
ghost use Rattle.shift_calls.specs.Shift.{exported_reading, ReadingKept, form_number, ReadingAnyKept, exported_writing, WritingKept};
ghost use Rattle.shift_calls.specs.Shift.{exported_record, frame_with, RecordKept, exported_move, MoveKept};

use shift_file::{SettingCodes, ShiftForm};
use shift_pairs::{BrokenFile, PairReport};
use shift_reader::{EntryKind, ShiftReading};
use shift_record::RecordFrame;
use shift_writer::NotWritten;
use yuv_error::YuvError;

// ---- The shift file. Its refusals 15 and 16 come without expected and received, so those who answer no other have room for counts instead.

fn tell_reading(reading: Result<ShiftReading, YuvError>, told: &mut [usize; 2]) -> u32
    ensures number { result ≡ (numbers_of (read_outcome reading)).number }
    ensures told { told.new ≡ (reading_of reading).count ∷ (reading_of reading).told ∷ [] }
{
    let read = reading.unwrap_or_default();
    *told = [read.count, read.told];
    error_numbers::answer_numbers(reading.map(|_| ())).number
}

// `segvartin_call_shift_records` of crate `segvartin` is one call of this.
pub fn call_shift_records(
    file: &[u8],
    first: usize,
    entries: &mut [u64],
    told: &mut [usize; 2],
) -> u32
    ensures { ReadingKept (exported_reading file.now first entries.old result told.new entries.new) }
{
    let reading = shift_reader::read_records(
        EntryKind::Places,
        ShiftForm::WithoutSettings,
        file,
        first,
        entries,
    );
    tell_reading(reading, told)
}

fn tell_reading_any(
    reading: Result<ShiftReading, YuvError>,
    form: ShiftForm,
    told: &mut [usize; 3],
) -> u32
    ensures number { result ≡ (numbers_of (read_outcome reading)).number }
    ensures told { told.new ≡ (reading_of reading).count ∷ (reading_of reading).told ∷ taken (read_outcome reading) (form_number form) ∷ [] }
{
    let read = reading.unwrap_or_default();
    let with_settings = reading.is_ok() && form == ShiftForm::WithSettings;
    *told = [read.count, read.told, usize::from(with_settings)];
    error_numbers::answer_numbers(reading.map(|_| ())).number
}

// `segvartin_call_shift_records_any` of crate `segvartin` is one call of this.
pub fn call_shift_records_any(
    file: &[u8],
    first: usize,
    entries: &mut [u64],
    told: &mut [usize; 3],
) -> u32
    ensures { ReadingAnyKept (exported_reading file.now first entries.old result told.new entries.new) }
{
    let form = shift_file::form_of(file);
    let reading = shift_reader::read_records(
        EntryKind::PlacesAndSettings,
        form,
        file,
        first,
        entries,
    );
    tell_reading_any(reading, form, told)
}

// `segvartin_call_shift_write` and `segvartin_call_shift_write_settings` of crate `segvartin` are one call of this each. The form is that of a file to be:
// there are no bytes of it yet.
pub fn call_shift_write(
    form: ShiftForm,
    records: &[u8],
    file: &mut [u8],
    told: &mut [usize; 1],
) -> u32
    ensures { WritingKept form (exported_writing records.now file.old result told.new file.new) }
{
    let written = shift_writer::write_file(form, records, file);
    shift_writer::tell_size(written, told)
}

// `segvartin_call_shift_forward` and `segvartin_call_shift_back` of crate `segvartin` are one call of this each. The form is that of the file.
pub fn call_shift_move(
    form: ShiftForm,
    file: &[u8],
    output: &mut [u8],
    told: &mut [usize; 1],
) -> u32
    ensures { MoveKept form (exported_move file.now output.old result told.new output.new) }
{
    let written = shift_move::move_file(form, file, output);
    shift_writer::tell_size(written, told)
}

fn tell_written(written: Result<usize, NotWritten>, told: &mut [usize; 3]) -> u32
    ensures number { result ≡ (numbers_of (outcome_of written)).number }
    ensures told { told.new
        ≡ (numbers_of (outcome_of written)).expected ∷ (numbers_of (outcome_of written)).received ∷ size_of written ∷ [] }
{
    told[2] = shift_writer::size_of(written);
    call_numbers::tell_answer(shift_writer::outcome_of(written), told)
}

// The frame of a record, from the six numbers that both forms have first: crossing, width, height, and the strides of Y, U and V.
fn frame_of(numbers: &[u32], settings: Option<SettingCodes>) -> RecordFrame
    requires { 6 ≤ length numbers.now }
    ensures { result ≡ frame_with numbers.now settings }
{
    RecordFrame {
        crossing: numbers[0],
        width: numbers[1],
        height: numbers[2],
        settings,
        y_stride: numbers[3],
        u_stride: numbers[4],
        v_stride: numbers[5],
    }
}

// `segvartin_call_shift_record` of crate `segvartin` is one call of this. It and the next stay two, since C gives the second four numbers more.
pub fn call_shift_record(
    numbers: &[u32; 6],
    y: &[u8],
    u: &[u8],
    v: &[u8],
    record: &mut [u8],
    told: &mut [usize; 3],
) -> u32
    ensures { RecordKept ShiftForm.WithoutSettings (exported_record numbers.now y.now u.now v.now
        «record».old result told.new «record».new) }
{
    let frame = frame_of(numbers, None);
    let written = shift_record::write_record(frame, y, u, v, record);
    tell_written(written, told)
}

// `segvartin_call_shift_record_settings` of crate `segvartin` is one call of this.
pub fn call_shift_record_settings(
    numbers: &[u32; 10],
    y: &[u8],
    u: &[u8],
    v: &[u8],
    record: &mut [u8],
    told: &mut [usize; 3],
) -> u32
    ensures { RecordKept ShiftForm.WithSettings (exported_record numbers.now y.now u.now v.now
        «record».old result told.new «record».new) }
{
    let settings = SettingCodes {
        sampling: numbers[6],
        range: numbers[7],
        matrix: numbers[8],
        transfer: numbers[9],
    };
    let frame = frame_of(numbers, Some(settings));
    let written = shift_record::write_record(frame, y, u, v, record);
    tell_written(written, told)
}

// ---- The summary of a shift file of either form. Its refusals 15 and 17 come without expected and received.

// `segvartin_call_summary_build` of crate `segvartin` is one call of this.
pub fn call_summary_build(file: &[u8], summary: &mut [u8]) -> u32
    ensures { BuildKept (exported_build file.now summary.old result summary.new) }
{
    let answer = summary_calls::build_summary(shift_file::form_of(file), file, summary);
    error_numbers::answer_numbers(answer).number
}

fn tell_verdict(verdict: Result<bool, YuvError>, told: &mut [usize; 1]) -> u32
    ensures number { result ≡ (numbers_of (outcome verdict)).number }
    ensures told { told.new ≡ as_number (says_yes verdict) ∷ [] }
{
    *told = [usize::from(verdict.unwrap_or(false))];
    error_numbers::answer_numbers(verdict.map(|_| ())).number
}

// `segvartin_call_summary_check` of crate `segvartin` is one call of this.
pub fn call_summary_check(file: &[u8], summary: &[u8], told: &mut [usize; 1]) -> u32
    ensures { CheckKept (exported_check file.now summary.now result told.new) }
{
    let verdict = summary_calls::check_summary(shift_file::form_of(file), file, summary);
    tell_verdict(verdict, told)
}

fn tell_finding(finding: Result<Option<usize>, YuvError>, told: &mut [usize; 2]) -> u32
    ensures number { result ≡ (numbers_of (outcome finding)).number }
    ensures told { told.new ≡ found_count (found_in finding) ∷ found_place (found_in finding) ∷ [] }
{
    let found = finding.unwrap_or(None);
    *told = [usize::from(found.is_some()), found.unwrap_or(0)];
    error_numbers::answer_numbers(finding.map(|_| ())).number
}

// `segvartin_call_summary_find` of crate `segvartin` is one call of this.
pub fn call_summary_find(file: &[u8], summary: &[u8], crossing: u32, told: &mut [usize; 2]) -> u32
    ensures { FindKept (exported_find file.now summary.now crossing result told.new) }
{
    let finding = summary_calls::find_record(shift_file::form_of(file), file, summary, crossing);
    tell_finding(finding, told)
}

// `segvartin_call_summary_update` of crate `segvartin` is one call of this.
pub fn call_summary_update(file: &[u8], added: &[u8], summary: &mut [u8]) -> u32
    ensures { UpdateKept (exported_update file.now added.now summary.old result summary.new) }
{
    let answer = summary_update::update_summary(shift_file::form_of(file), file, added, summary);
    error_numbers::answer_numbers(answer).number
}

// C is told the file that is none by its number, 1 or 2, and 0 where both are files.
fn tell_broken(pairing: Result<PairReport, BrokenFile>, told: &mut [usize; 1]) -> u32
    ensures number { result ≡ (numbers_of (pairing_outcome pairing)).number }
    ensures told { told.new ≡ broken_told pairing ∷ [] }
{
    *told = [pairing.err().map_or(0, u32::from) as usize];
    error_numbers::answer_numbers(pairing.map(|_| ()).map_err(YuvError::from)).number
}

// `segvartin_call_shift_pairs` of crate `segvartin` is one call of this.
pub fn call_shift_pairs(
    ours: &[u8],
    theirs: &[u8],
    report: &mut [u64; 18],
    told: &mut [usize; 1],
) -> u32
    ensures { PairingKept (exported_pairing ours.now theirs.now report.old result told.new report.new) }
{
    let our_form = shift_file::form_of(ours);
    let their_form = shift_file::form_of(theirs);
    let pairing = shift_pairs::pair_files(our_form, ours, their_form, theirs);
    report_numbers::tell_pairing(pairing, report);
    tell_broken(pairing, told)
}
