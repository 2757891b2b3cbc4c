// Writing a shift file from records back to back, which is how a file's own tail has them (RULES 11.5). They are counted, and the output is measured,
// before a byte is written.
#![tactic(auto)]

mod list; // records that were counted

ghost use Rattle.std.specs.Prelude.{◌≡◌, ◌++◌, ◌+◌, ◌≤◌, length, [], ◌∷◌, Ok, Err};
ghost use Rattle.std.proofs.lemmas.List.Edits.{sets};
ghost use Rattle.yuv_error.specs.Numbers.{numbers_of};
ghost use Rattle.little_endian.specs.Number.{low_bytes};
ghost use Rattle.shift_file.specs.File.{mark, pairs_at};
ghost use Rattle.shift_writer.specs.Records.{count_back};
ghost use Rattle.shift_writer.specs.Output.{outcome_of, size_of};
ghost use Rattle.shift_writer.specs.Writing.{WritePost};

use list::RecordList;
use shift_file::ShiftForm;
use yuv_error::YuvError;

// Why nothing was written: a refusal that tells no size, or an output that is shorter than what was to be written in it, with the size that is wanted.
// It has no Display and no Error: it passes between crates, C is told its numbers, and nothing prints it.
#[derive(Clone, Copy, Debug, PartialEq, Eq)]
pub enum NotWritten {
    Refused(YuvError),
    TooShort(usize),
}

impl From<YuvError> for NotWritten {
    ghost use Rattle.std.specs.Prelude.{◌≡◌};
    ghost use Rattle.shift_writer.specs.declared.NotWritten.TheVariants.{Refused};

    ghost from_gives = { λ error r. r ≡ Refused error };

    fn from(error: YuvError) -> NotWritten {
        NotWritten::Refused(error)
    }
}

// The refusal without the size: 16 where the output is too short.
impl From<NotWritten> for YuvError {
    ghost use Rattle.std.specs.Prelude.{◌≡◌};
    ghost use Rattle.shift_writer.specs.Output.{refusal_of};

    ghost from_gives = { λ reason error. error ≡ refusal_of reason };

    fn from(reason: NotWritten) -> YuvError {
        match reason {
            NotWritten::Refused(refusal) => refusal,
            NotWritten::TooShort(_) => YuvError::OutputTooShort,
        }
    }
}

// The bytes that were written, or that are wanted where the output is too short for them; 0 with a refusal. No `From`, here and in the next: `Result` and
// `usize` are std's, and these are the two things that an answer tells.
pub fn size_of(written: Result<usize, NotWritten>) -> usize
    ensures { result ≡ size_of written }
{
    match written {
        Ok(size) => size,
        Err(NotWritten::TooShort(size)) => size,
        Err(NotWritten::Refused(_)) => 0,
    }
}

// The answer without the size.
pub fn outcome_of(written: Result<usize, NotWritten>) -> Result<(), YuvError>
    ensures { result ≡ outcome_of written }
{
    written.map(|_| ()).map_err(YuvError::from)
}

// For callers without enums: tells the size, and answers the refusal's number, 0 of finished work.
pub fn tell_size(written: Result<usize, NotWritten>, told: &mut [usize; 1]) -> u32
    ensures number { result ≡ (numbers_of (outcome_of written)).number }
    ensures told { told.new ≡ size_of written ∷ [] }
{
    *told = [size_of(written)];
    error_numbers::answer_numbers(outcome_of(written)).number
}

// How many records stand back to back, to the end, where that is so and they are no more than a file has.
fn count_records(form: ShiftForm, records: &[u8]) -> Option<usize>
    ensures { result ≡ count_back form records.now }
{
    let mut at = 0;
    for count in 0..shift_file::MOST_RECORDS as usize + 1 {
        if at == records.len() {
            return Some(count);
        }
        at += shift_file::size_standing(form, shift_file::from_place(records, at))?;
    }
    None
}

// The two numbers of a pair, at its place, as `little_endian` puts them.
pub fn write_pair(output: &mut [u8], pair: usize, offset: usize, size: usize)
    requires { pair + 12 ≤ length output.old }
    ensures { output.new ≡ sets output.old pair (low_bytes 8 offset ++ low_bytes 4 size) }
{
    little_endian::write_number(output, pair, offset as u64, 8);
    little_endian::write_number(output, pair + 8, size as u64, 4);
}

// What stands before the count.
pub fn write_mark(form: ShiftForm, output: &mut [u8])
    requires { 4 ≤ length output.old }
    ensures { output.new ≡ sets output.old 0 (mark form) }
{
    match form {
        ShiftForm::WithoutSettings => {}
        ShiftForm::WithSettings => {
            little_endian::write_number(output, 0, shift_file::MARK.into(), 4);
        }
    }
}

// Mark and count of a file of so many records, at the front of the output; answers where the pairs stand.
#[tactic(auto, using(crate::proofs::Pairs::front_put))]
pub fn write_front(form: ShiftForm, count: usize, output: &mut [u8]) -> usize
    requires { pairs_at form ≤ length output.old }
    ensures value { result ≡ pairs_at form }
    ensures most { result ≤ 8 }
    ensures written { output.new ≡ sets output.old 0 (mark form ++ low_bytes 4 count) }
{
    let counted = form.mark_size();
    write_mark(form, output);
    little_endian::write_number(output, counted, count as u64, 4);
    counted + 4
}

// Writes the file of these records at the front of the output; or answers 15 where they are no list of records that has a file, 16 where the output
// is shorter than the file, and writes nothing.
pub fn write_file(form: ShiftForm, records: &[u8], output: &mut [u8]) -> Result<usize, NotWritten>
    ensures { WritePost form records.now output.old result output.new }
{
    let list = RecordList::open(form, records)?;
    let size = list.file_size();
    if output.len() < size {
        return Err(NotWritten::TooShort(size));
    }
    list.put_file(output);
    Ok(size)
}
