// The holes of a bitmap: the unmarked slots below m, ascending (rule H).
#![tactic(auto)]

ghost use Rattle.std.specs.Prelude.{◌≡◌, ◌++◌, ◌*◌, ◌/◌, ◌<◌, ◌≤◌, leb, length, drop};
ghost use Rattle.rules.specs.Holes.{holes_of};
ghost use Rattle.rules.specs.Numbers.{bitmap_words};
ghost use Rattle.rules.specs.Answers.{said_count, holes_answer, holes_out};
ghost use Rattle.holes.specs.Free.{free_bits};

use rules::Refusal;

// The holes of word w as set bits. Spare bits of the last word, from m on, are none.
#[tactic(auto, using(crate::proofs::Walk::masked), unfolding(crate::specs::Free::free_bits))]
fn free_bits(m: usize, w: usize, word: u64) -> u64
    requires { w * 64 < m }
    ensures { result ≡ free_bits m w word }
{
    let valid = m - w * 64;
    if valid < 64 {
        !word & ((1u64 << valid) - 1)
    } else {
        !word
    }
}

// How many holes there are: the ones of the free words.
fn count_holes(m: usize, bitmap: &[u64]) -> usize
    requires { (m ≤ 134217728) × (length bitmap.now ≡ bitmap_words m) }
    ensures { (result ≡ length (holes_of m bitmap.now)) × (result ≤ m) }
{
    let mut total: usize = 0;
    for (w, word) in bitmap.iter().enumerate() {
        total += free_bits(m, w, *word).count_ones() as usize;
    }
    total
}

// Whether so much room is enough. No level has more holes than slots, so only a smaller room has them counted.
#[tactic(auto, using(crate::proofs::Walk::holes_length))]
fn has_room(m: usize, bitmap: &[u64], room: usize) -> bool
    requires { (m ≤ 134217728) × (length bitmap.now ≡ bitmap_words m) }
    ensures { result ≡ leb (length (holes_of m bitmap.now)) room }
{
    m <= room || count_holes(m, bitmap) <= room
}

// Writes the holes to the front of out, of each free word the lowest set bit until none is left, and answers how many they are.
fn list_holes(m: usize, bitmap: &[u64], out: &mut [u32]) -> usize
    requires { (m ≤ 134217728) × (length bitmap.now ≡ bitmap_words m) × (length (holes_of m bitmap.now) ≤ length out.old) }
    ensures counted { result ≡ length (holes_of m bitmap.now) }
    ensures listed { out.new ≡ holes_of m bitmap.now ++ drop (length (holes_of m bitmap.now)) out.old }
{
    let mut n: usize = 0;
    for (w, word) in bitmap.iter().enumerate() {
        let mut free = free_bits(m, w, *word);
        // A walk from one set bit to the next counts no index.
        while free != 0 {
            out[n] = (w * 64) as u32 + free.trailing_zeros();
            n += 1;
            free &= free - 1;
        }
    }
    n
}

// Puts the holes at the front of out and answers how many there are, or refuses with 5, 13 or 15 and writes nothing.
#[tactic(auto, unfolding(rules::specs::Answers::said_count, rules::specs::Answers::unless, rules::specs::Answers::kept_unless, rules::specs::Answers::holes_answer, rules::specs::Answers::holes_out, rules::specs::Numbers::first_of, rules::specs::Numbers::holes_lines, rules::specs::Numbers::line5))]
pub fn holes(m: u64, bitmap: &[u64], out: &mut [u32]) -> Result<u64, Refusal>
    ensures answer { said_count result ≡ holes_answer m bitmap.now out.old }
    ensures buffer { out.new ≡ holes_out m bitmap.now out.old }
{
    if m < 1 || 134_217_728 < m {
        return Err(Refusal::Slots);
    }
    let slots = m as usize;
    if bitmap.len() != (slots + 63) / 64 {
        return Err(Refusal::Lengths);
    }
    if !has_room(slots, bitmap, out.len()) {
        return Err(Refusal::HoleBuffer);
    }
    Ok(list_holes(slots, bitmap, out) as u64)
}
