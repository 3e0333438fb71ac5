// Level files: a finished level without its hashes, in house numbers.
#![tactic(auto)]

mod reading;
mod writing;

ghost use Rattle.std.specs.Prelude.{◌≡◌, OnErr};
ghost use Rattle.level_file.specs.Taking.{taken_as, taken_at};

use house_numbers::{Decoded, decode};
pub use reading::{Level, read_file};
use rules::Refusal;
pub use writing::write_file;

// The only version of the format, the first number of a file.
const VERSION: u64 = 1;

// The number at a place and the place after it. Refused: FileShort where there is none.
#[tactic(auto, unfolding(crate::specs::Taking::taken_of, crate::specs::Taking::taken_at))]
pub fn take_at(bytes: &[u8], at: usize) -> Result<Decoded, Refusal>
    ensures { result ≡ taken_at bytes.now at }
{
    decode(bytes, at).ok_or(Refusal::FileShort)
}

// A level file that is being read: its bytes, and the place of the next number.
#[derive(Clone, Copy)]
pub struct Reader<'a> {
    pub bytes: &'a [u8],
    pub at: usize,
}

impl<'a> Reader<'a> {
    // Hands over the number at the reader's place, and goes on to the place after it. A refusal leaves the reader where it is.
    #[tactic(auto, unfolding(crate::specs::Taking::taken_as))]
    pub fn next(&mut self) -> Result<u64, Refusal>
        ensures value { taken_as result self.new.at ≡ taken_at self.old.bytes.now self.old.at }
        ensures same { self.new.bytes.now ≡ self.old.bytes.now }
        ensures stays { OnErr result (self.new.at ≡ self.old.at) }
    {
        let Decoded { value, next } = take_at(self.bytes, self.at)?;
        self.at = next;
        Ok(value)
    }
}

// The number at a reader's place and the place after it. The reader is a copy, so the caller's stays where it is.
pub fn next<'a>(reader: Reader<'a>) -> Result<Decoded, Refusal>
    ensures { result ≡ taken_at reader.entry.bytes.now reader.entry.at }
{
    take_at(reader.bytes, reader.at)
}

// The number at a place of a lent file and the place after it, through a reader that stands there. Whoever holds no reader calls this.
#[tactic(auto, unfolding(crate::specs::Taking::taken_as))]
pub fn number_at(bytes: &[u8], at: usize) -> Result<Decoded, Refusal>
    ensures { result ≡ taken_at bytes.now at }
{
    let mut reader = Reader { bytes, at };
    let value = reader.next()?;
    Ok(Decoded {
        value,
        next: reader.at,
    })
}
