// House numbers: groups of seven bits, low group first, the top bit of a byte set while more follow.
#![tactic(auto)]

ghost use Rattle.std.specs.Prelude.{◌≡◌, ◌+◌, ◌≤◌, length};
ghost use Rattle.std.proofs.lemmas.List.Edits.{sets};
ghost use Rattle.house_numbers.specs.Encode.{encoded, encoded_next, encoded_out};
ghost use Rattle.house_numbers.specs.Decode.{grown_by, decoded_at};

// A number that is being read: the value of its groups so far, and how many they are.
#[derive(Clone, Copy, Default)]
pub struct Part {
    pub value: u64,
    pub groups: u64,
}

// What one more byte makes of a part.
#[derive(Clone, Copy)]
pub enum Grown {
    More(Part),
    Whole(u64),
}

// A number that was read, and the place after it.
#[derive(Clone, Copy)]
pub struct Decoded {
    pub value: u64,
    pub next: usize,
}

// Takes one more byte to a part. None: an eleventh group, or a value of over 64 bits.
pub fn grow(part: Part, byte: u8) -> Option<Grown>
    ensures { result ≡ grown_by part byte }
{
    let Part { value, groups } = part;
    if groups > 9 {
        return None;
    }
    let group = byte as u64 % 128;
    let shift = 7 * groups;
    if group > (u64::MAX - value) >> shift {
        return None;
    }
    let sum = value + (group << shift);
    if byte < 128 {
        return Some(Grown::Whole(sum));
    }
    Some(Grown::More(Part {
        value: sum,
        groups: groups + 1,
    }))
}

// Reads the number at a place. None: the bytes end within it, or `grow` refuses it.
pub fn decode(bytes: &[u8], at: usize) -> Option<Decoded>
    ensures { result ≡ decoded_at bytes.now at }
{
    let mut part = Part::default();
    for place in at..bytes.len() {
        match grow(part, bytes[place])? {
            Grown::More(more) => part = more,
            Grown::Whole(value) => {
                return Some(Decoded {
                    value,
                    next: place + 1,
                });
            }
        }
    }
    None
}

// Writes a number at a place, and answers the place after it. None where it has no room.
pub fn encode(value: u64, out: &mut [u8], at: usize) -> Option<usize>
    ensures answer { result ≡ encoded_next value (length out.old) at }
    ensures buffer { out.new ≡ encoded_out value out.old at }
{
    let room = out.len().checked_sub(at)?;
    if group_count(value) > room {
        return None;
    }
    Some(put_groups(value, out, at))
}

// How many groups a number has: one, and one more for each seven bits that are left. No range is known before: what is left ends the loop.
pub fn group_count(value: u64) -> usize
    ensures { result ≡ length (encoded value) }
{
    let mut count = 1;
    let mut rest = value;
    while rest >= 128 {
        rest /= 128;
        count += 1;
    }
    count
}

// Writes the groups of a number from a place on, and answers the place after them. What is left of it ends the loop here too.
pub fn put_groups(value: u64, out: &mut [u8], at: usize) -> usize
    requires { at + length (encoded value) ≤ length out.old }
    ensures value { result ≡ at + length (encoded value) }
    ensures out_after { out.new ≡ sets out.old at (encoded value) }
{
    let mut rest = value;
    let mut place = at;
    while rest >= 128 {
        out[place] = (128 + rest % 128) as u8;
        rest /= 128;
        place += 1;
    }
    out[place] = rest as u8;
    place + 1
}
