// What the programs that replay stored calls share: a list of calls, which is read one part after the other, the loop over its calls,
// and what is printed of a call. The gate compares. vectors/README.md has the form of a list and of what is printed.
#![tactic(auto)]

mod ending;
mod list;
mod printed;
mod reading;
mod slices;

pub use ending::{Lossy, passed_over};
pub use list::{List, each, list_of, over_streams_as_read, repeat, replay_as_read};
pub use printed::{Answer, Digest, Left, Numbers, Planes, crc32};
pub use reading::{ByteSource, Streamed};
pub use slices::{over_streams, replay};
