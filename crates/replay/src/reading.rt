// The cases on standard input, in house numbers. What has no room is read and not kept.
ghost use Rattle.std.specs.Prelude.{◌≡◌, length};

use house_numbers::{Grown, Part, grow};

// The next byte, or 0 past the end.
fn byte() -> u8 {
    let mut byte = [0u8; 1];
    io::read_full(0, &mut byte);
    byte[0]
}

// The next number. Where there is none it is 0.
pub fn number() -> u64 {
    let mut part = Part::default();
    for _ in 0..10 {
        match grow(part, byte()) {
            Some(Grown::More(more)) => part = more,
            Some(Grown::Whole(value)) => return value,
            None => return 0,
        }
    }
    0
}

fn keep<T: Copy + Drop>(xs: &mut [T], at: u64, x: T) {
    if let Some(place) = xs.get_mut(at as usize) {
        *place = x;
    }
}

// The low 32 bits.
fn short(x: u64) -> u32 {
    (x % 4_294_967_296) as u32
}

// The head of a case, as `list_input` takes it apart: m, log2_slice_len, ll, sb, the bump flag, the weights and B.
pub fn head() -> [u64; 13]
    ensures { 13 ≡ length result }
{
    let mut head = [0; 13];
    for x in head.iter_mut() {
        *x = number();
    }
    head
}

// The logarithm table, each entry as its difference from the one before.
pub fn table(xs: &mut [u32]) {
    let mut entry: u64 = 0;
    for i in 0..number() {
        entry = entry.wrapping_add(number());
        keep(xs, i, short(entry));
    }
}

// One bucket: its hashes, from a place on. Answers the place after them.
fn bucket(hashes: &mut [u64], from: u64) -> u64 {
    let mut at = from;
    for _ in 0..number() {
        keep(hashes, at, number());
        at = at.wrapping_add(1);
    }
    at
}

// All buckets: their hashes, and where each begins and the last ends. Answers the number of keys.
pub fn groups(buckets: u64, hashes: &mut [u64], begins: &mut [u32]) -> u64 {
    let mut keys = 0;
    for b in 0..buckets {
        keep(begins, b, short(keys));
        keys = bucket(hashes, keys);
    }
    keep(begins, buckets, short(keys));
    keys
}

// So many numbers, read for what comes after them.
fn skip() {
    for _ in 0..number() {
        number();
    }
}

// The Rust's answer, read for what comes after it.
pub fn skip_answer(refused: u64) {
    if refused != 0 {
        number();
        return;
    }
    skip();
    skip();
    skip();
}
