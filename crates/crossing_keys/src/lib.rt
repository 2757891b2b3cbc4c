// The records of a shift file in order of their crossings: a key of each, sorted. Records of one crossing keep the file's order.
#![tactic(auto)]

ghost use Rattle.std.specs.Prelude.{◌≡◌, map, length};
ghost use Rattle.merge_sort.specs.Ascending.{sorted, keys_from};
ghost use Rattle.shift_file.specs.Read.{records_in};
ghost use Rattle.crossing_keys.specs.Keys.{crossings_of, number_of};

mod key;
mod ordered; // a file with its keys

pub use key::Key;
pub use ordered::OrderedFile;
use shift_reader::file::ShiftFile;

// The key of each record, in ascending order. By number: a key holds its record's place, and of what an adapter of `iter_mut` writes, as `enumerate`, std
// says nothing.
pub fn write_keys(file: &ShiftFile, keys: &mut [Key])
    requires { length keys.old ≡ file.now.count }
    ensures { map number_of keys.new ≡ sorted (keys_from 0 (crossings_of (records_in file.now.form file.now.bytes.now))) }
{
    for place in 0..keys.len() {
        let entry = file.record(place).entry();
        keys[place] = Key::new(entry.crossing, place);
    }
    merge_sort::sort(keys);
}
