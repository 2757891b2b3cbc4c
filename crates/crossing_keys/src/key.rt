// The key that records are put in order by.
ghost use Rattle.std.specs.Prelude.{◌≡◌, ◌/◌, ◌%◌, ◌<◌};
ghost use Rattle.merge_sort.specs.Ascending.{key};

use merge_sort::Numbered;

// A key has room for the place of any of 4,096 records.
const PLACES: u64 = 4096;

// A record of a shift file as a number: its crossing above its place in the file, from 0. Keys are in order as their numbers are. Any number is a key.
#[derive(Clone, Copy, Debug, PartialEq, Eq, PartialOrd, Ord)]
pub struct Key(pub u64);

impl Key {
    pub fn new(crossing: u32, place: usize) -> Key
        requires { place < 4096 }
        ensures { result.0 ≡ key crossing place }
    {
        Key(u64::from(crossing) * PLACES + place as u64)
    }

    pub fn crossing(self) -> u64
        ensures { result ≡ self.0 / 4096 }
    {
        self.0 / PLACES
    }

    pub fn place(self) -> usize
        ensures { result ≡ self.0 % 4096 }
    {
        (self.0 % PLACES) as usize
    }
}

impl Numbered for Key {
    ghost use Rattle.std.specs.Prelude.{map};
    ghost use Rattle.std.proofs.Common.{refl};
    ghost use Rattle.crossing_keys.specs.Keys.{number_of};

    ghost number = { number_of };

    ghost numbers = { map number_of };

    ghost each = { λ _. refl };

    fn number(&self) -> u64 {
        let Key(number) = *self;
        number
    }
}
