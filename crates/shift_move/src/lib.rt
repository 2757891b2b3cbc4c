// A shift file moved to the other form, record for record (RULES 11.8): forward sets 4:2:0 and records nothing else, back drops just that. Crossings,
// sizes, planes and their order stay. The output is measured before a byte is written.
#![tactic(auto)]

ghost use Rattle.std.specs.Prelude.{◌≡◌, ◌+◌, ◌*◌, ◌^◌, ◌≤◌, ◌<◌, length};
ghost use Rattle.std.proofs.lemmas.List.Edits.{sets};
ghost use Rattle.shift_file.specs.File.{code_list, bytes_of, pairs_of, record_bytes};
ghost use Rattle.shift_file.specs.Read.{records_in};
ghost use Rattle.shift_reader.specs.Known.{record_in};
ghost use Rattle.shift_move.specs.Move.{other_form, plain_settings, is_plain, are_plain, may_move, moved_record, moved, moved_file};
ghost use Rattle.shift_move.specs.Moving.{MovePost};

use shift_file::{SettingCodes, ShiftForm};
use shift_reader::file::{FileRecord, ShiftFile};
use shift_writer::NotWritten;
use yuv_error::YuvError;

fn other_form(form: ShiftForm) -> ShiftForm
    ensures { result ≡ other_form form }
{
    match form {
        ShiftForm::WithoutSettings => ShiftForm::WithSettings,
        ShiftForm::WithSettings => ShiftForm::WithoutSettings,
    }
}

// ---- what may move back

// Whether these are 4:2:0 and nothing recorded.
fn is_plain(codes: SettingCodes) -> bool
    ensures { result ≡ is_plain (code_list codes) }
{
    codes == SettingCodes::not_recorded()
}

// A loop: by `all` over the records' numbers the proof did not close.
fn are_plain(file: &ShiftFile) -> bool
    requires { file.now.form ≡ ShiftForm.WithSettings }
    ensures { result ≡ are_plain (records_in file.now.form file.now.bytes.now) }
{
    for k in 0..file.count {
        if !is_plain(file.record(k).settings()) {
            return false;
        }
    }
    true
}

fn may_move(file: &ShiftFile) -> bool
    ensures { result ≡ may_move file.now.form (records_in file.now.form file.now.bytes.now) }
{
    match file.form {
        ShiftForm::WithoutSettings => true,
        ShiftForm::WithSettings => are_plain(file),
    }
}

// ---- a record in the other form

// The bytes of a record, moved.
fn moved_size(file_record: &FileRecord) -> usize
    ensures { result ≡ length (bytes_of (moved_record (other_form file_record.now.file.form) (record_in file_record.now))) }
{
    let form = file_record.file.form;
    file_record.entry().length - form.header_size() + other_form(form).header_size()
}

// The settings of a moved record.
fn plain_settings(form: ShiftForm) -> &'static [u8]
    ensures { result.now ≡ plain_settings form }
{
    match form {
        ShiftForm::WithoutSettings => &[],
        ShiftForm::WithSettings => &[0, 255, 255, 255],
    }
}

// A record, moved, at the front: crossing, width and height, other settings, and its planes.
fn put_record(file_record: &FileRecord, output: &mut [u8])
    requires { length (bytes_of (moved_record (other_form file_record.now.file.form) (record_in file_record.now))) ≤ length output.old }
    ensures { output.new ≡ sets output.old 0 (bytes_of (moved_record (other_form file_record.now.file.form) (record_in file_record.now))) }
{
    let form = file_record.file.form;
    let to = other_form(form);
    let bytes = file_record.bytes();
    let planes = shift_file::from_place(bytes, form.header_size());
    little_endian::put(output, 0, shift_file::part_of(bytes, 0, 8));
    little_endian::put(output, 8, plain_settings(to));
    little_endian::put(output, to.header_size(), planes);
}

// ---- a file in the other form

// The pairs of the moved records, the first of which is to stand at `first`. `RecordList` of `shift_writer` writes its own: its sizes are read from bytes,
// each where the one before it ends, and these are a checked file's by number. One function over a closure of sizes would ask for both, which is no plainer.
fn write_pairs(file: &ShiftFile, first_pair: usize, first: usize, output: &mut [u8])
    requires room { first_pair + 12 * file.now.count ≤ length output.old }
    requires most { first + length (record_bytes (moved (other_form file.now.form) (records_in file.now.form file.now.bytes.now))) < 2 ^ 64 }
    ensures { output.new
        ≡ sets output.old first_pair (pairs_of first (moved (other_form file.now.form) (records_in file.now.form file.now.bytes.now))) }
{
    let mut at = first;
    for k in 0..file.count {
        let size = moved_size(&file.record(k));
        shift_writer::write_pair(output, first_pair + 12 * k, at, size);
        at += size;
    }
}

// The moved records, back to back.
fn put_records(file: &ShiftFile, first: usize, output: &mut [u8])
    requires { first + length (record_bytes (moved (other_form file.now.form) (records_in file.now.form file.now.bytes.now))) ≤ length output.old }
    ensures { output.new
        ≡ sets output.old first (record_bytes (moved (other_form file.now.form) (records_in file.now.form file.now.bytes.now))) }
{
    let mut at = first;
    for k in 0..file.count {
        let record = file.record(k);
        put_record(&record, &mut output[at..]);
        at += moved_size(&record);
    }
}

fn put_file(file: &ShiftFile, output: &mut [u8])
    requires { length (moved_file file.now.form file.now.bytes.now) ≤ length output.old }
    ensures { output.new ≡ sets output.old 0 (moved_file file.now.form file.now.bytes.now) }
{
    let to = other_form(file.form);
    let pairs = shift_writer::write_front(to, file.count, output);
    let first = pairs + 12 * file.count;
    write_pairs(file, pairs, first, output);
    put_records(file, first, output);
}

// The bytes of the moved file: with settings it has the mark, and four bytes a record.
fn file_size(file: &ShiftFile) -> usize
    requires { length (moved_file file.now.form file.now.bytes.now) < 2 ^ 64 }
    ensures { result ≡ length (moved_file file.now.form file.now.bytes.now) }
{
    let settings = 4 + 4 * file.count;
    match file.form {
        ShiftForm::WithoutSettings => file.bytes.len() + settings,
        ShiftForm::WithSettings => file.bytes.len() - settings,
    }
}

// Writes a shift file of this form as one of the other, at the front of the output: one without settings gets 4:2:0 and nothing recorded, and one with
// settings loses just that. Or answers 15 where these bytes are no shift file of the form, 20 where a record of a file with settings has 4:2:2 or a
// recorded setting, 16 where the output is shorter than the moved file, and writes nothing.
pub fn move_file(from: ShiftForm, file: &[u8], output: &mut [u8]) -> Result<usize, NotWritten>
    ensures { MovePost from file.now output.old result output.new }
{
    let file = ShiftFile::open(from, file)?;
    if !may_move(&file) {
        return Err(NotWritten::Refused(YuvError::SettingsRecorded));
    }
    let size = file_size(&file);
    if output.len() < size {
        return Err(NotWritten::TooShort(size));
    }
    put_file(&file, output);
    Ok(size)
}
