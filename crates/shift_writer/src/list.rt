// Records back to back that were counted (RULES 11.5).
ghost use Rattle.std.specs.Prelude.{◌≡◌, ◌≤◌, Some};
ghost use Rattle.little_endian.specs.Number.{Bytes};
ghost use Rattle.shift_writer.specs.Records.{count_back};

use shift_file::ShiftForm;
use yuv_error::YuvError;

// Bytes that are a list of records that has a file, and how many they are.
#[derive(Clone, Copy)]
pub struct RecordList<'a> {
    pub form: ShiftForm,
    pub bytes: &'a [u8],
    pub count: usize,
    ghost counted: { count_back form bytes.now ≡ Some count },
    ghost few: { count ≤ 4096 },
    ghost are_bytes: { Bytes bytes.now },
}

impl<'a> RecordList<'a> {
    ghost use Rattle.std.specs.Prelude.{◌≡◌, ◌+◌, ◌*◌, ◌≤◌, ◌<◌, ◌^◌, true, false, length, IfOk, IfErr, OnOk};
    ghost use Rattle.std.proofs.lemmas.List.Edits.{sets};
    ghost use Rattle.shift_file.specs.File.{pairs_of};
    ghost use Rattle.shift_writer.specs.Records.{are_records, records_back, file_made};

    // These bytes, where they are records that have a file.
    #[tactic(auto, using(crate::proofs::Answers::are_records_lem, crate::proofs::Answers::no_records, crate::proofs::Answers::few))]
    pub fn open(form: ShiftForm, bytes: &'a [u8]) -> Result<RecordList<'a>, YuvError>
        ensures same { IfOk result (λ l. (l.form ≡ form) × (l.bytes.now ≡ bytes.now)) }
        ensures accepted { OnOk result (are_records form bytes.now ≡ true) }
        ensures refused { IfErr result (λ e. (e ≡ YuvError.MalformedShiftFile) × (are_records form bytes.now ≡ false)) }
    {
        let count = crate::count_records(form, bytes).ok_or(YuvError::MalformedShiftFile)?;
        Ok(RecordList { form, bytes, count })
    }

    // The bytes of their file.
    #[tactic(auto, using(crate::proofs::Lists::list_length))]
    pub fn file_size(&self) -> usize
        ensures { result ≡ length (file_made self.now.form self.now.bytes.now) }
    {
        self.form.mark_size() + 4 + 12 * self.count + self.bytes.len()
    }

    // The pairs, the first of which tells of a record at `first`. `write_pairs` of `shift_move` says why it stands beside this one.
    fn write_pairs(&self, first_pair: usize, first: usize, output: &mut [u8])
        requires { (first_pair + 12 * self.now.count ≤ length output.old) × (first + length self.now.bytes.now < 2 ^ 64) }
        ensures { output.new ≡ sets output.old first_pair (pairs_of first (records_back self.now.form self.now.bytes.now)) }
    {
        let mut at = 0;
        for k in 0..self.count {
            let size = shift_file::size_at(self.form, shift_file::from_place(self.bytes, at));
            crate::write_pair(output, first_pair + 12 * k, first + at, size);
            at += size;
        }
    }

    // The file, at the front.
    #[tactic(auto, using(crate::proofs::Lists::list_length))]
    pub fn put_file(&self, output: &mut [u8])
        requires { length (file_made self.now.form self.now.bytes.now) ≤ length output.old }
        ensures { output.new ≡ sets output.old 0 (file_made self.now.form self.now.bytes.now) }
    {
        let pairs = crate::write_front(self.form, self.count, output);
        let first = pairs + 12 * self.count;
        self.write_pairs(pairs, first, output);
        little_endian::put(output, first, self.bytes);
    }
}
