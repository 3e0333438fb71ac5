// The sweep list program's input: read byte by byte for its form, and taken apart.
#![tactic(auto)]

mod asked;
mod numbers;
mod stream;

pub use asked::{bump_of, over_size, settings_of, split, weights_of};
use house_numbers::Part;
pub use stream::{feed, scan_ends, start};

// How many numbers stand at the head, and the place of the bump flag among them.
const HEAD: usize = 13;

const FLAG: usize = 4;

// How many numbers are kept: an accepted input has no more (13 at the head, 64 key counts, 128 hashes).
pub const KEPT: usize = 205;

// Where the form stands: so many numbers of the head were read, or the head is over, with so many hashes of the present bucket and then so
// many buckets still to come.
#[derive(Clone, Copy)]
pub enum Form {
    Head(usize),
    Groups { keys: u64, buckets: u64 },
}

// The number that is being read, the form unless there was an error of form, and how many numbers were read: one above `KEPT`
// stands for every number above it.
#[derive(Clone, Copy)]
pub struct Scan {
    pub part: Part,
    pub form: Option<Form>,
    pub count: usize,
}
