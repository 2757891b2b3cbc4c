// A shift file with its records in order.

ghost use Rattle.std.specs.Prelude.{◌≡◌, map, length};
ghost use Rattle.merge_sort.specs.Ascending.{sorted, keys_from};
ghost use Rattle.shift_file.specs.Read.{records_in};
ghost use Rattle.crossing_keys.specs.Keys.{crossings_of, number_of};

use crate::key::Key;
use shift_reader::file::ShiftFile;

// A shift file, and the key of each of its records, in ascending order.
#[derive(Clone, Copy)]
pub struct OrderedFile<'a, 'b> {
    pub file: ShiftFile<'a>,
    pub keys: &'b [Key],
    ghost in_order: { map number_of keys.now ≡ sorted (keys_from 0 (crossings_of (records_in file.form file.bytes.now))) },
}

impl<'a, 'b> OrderedFile<'a, 'b> {
    // A file put in order: `in_order` says what its keys are. They stand at the front of the caller's array, since no heap is used; a file has at most
    // 4,096 records, so there is room for each. The array is lent for as long as the result, and nothing is promised of it afterwards.
    pub fn sorted(file: &ShiftFile<'a>, keys: &'b mut [Key; 4096]) -> OrderedFile<'a, 'b>
        ensures same { result.file ≡ file.now }
        ensures counted { length result.keys.now ≡ file.now.count }
    {
        let keys = &mut keys[..file.count];
        crate::write_keys(file, keys);
        OrderedFile { file: *file, keys }
    }
}
