// Our answers to a case beside the Rust's, which come next on standard input.
use crate::reading::number;
use crate::rubbish::nonzero;
use comparing::Comparison;
use holes::holes;
use rules::{Counts, Stop};

// The number at a place, or 0 where there is none.
fn at(xs: &[u32], place: u64) -> u64 {
    xs.get(place as usize).map_or(0, |x| u64::from(*x))
}

// The number that refuses, or 0.
fn refused_by(outcome: Result<Counts, Stop>) -> u64 {
    outcome.map_or_else(|stop| stop.why.number(), |_| 0)
}

// The bucket that a refusal names, or 2^64 - 1.
fn named_by(outcome: Result<Counts, Stop>) -> u64 {
    outcome
        .err()
        .and_then(|stop| stop.bucket)
        .unwrap_or(u64::MAX)
}

// The counts with one bucket more.
fn counted(c: Counts, size: u64, seed: u16) -> Counts {
    if seed == 0 {
        return Counts {
            bumped: c.bumped.wrapping_add(size),
            zero: c.zero.wrapping_add(1),
            ..c
        };
    }
    Counts {
        placed: c.placed.wrapping_add(size),
        ..c
    }
}

// The record's counts are those of the seeds.
fn counts_held<R: Print>(c: &mut Comparison<R>, counts: Counts, begins: &[u32], seeds: &[u16]) {
    let mut sums = NO_KEYS;
    for (b, seed) in seeds.iter().enumerate() {
        let b = b as u64;
        let size = at(begins, b.wrapping_add(1)).saturating_sub(at(begins, b));
        sums = counted(sums, size, *seed);
    }
    c.held(b"keys placed", counts.placed, sums.placed);
    c.held(b"keys bumped", counts.bumped, sums.bumped);
    c.held(b"buckets with seed 0", counts.zero, sums.zero);
}

const NO_KEYS: Counts = Counts {
    placed: 0,
    bumped: 0,
    zero: 0,
};

// How many numbers there are, and each.
fn all_held<R: Print, T: Copy + Drop + Into<u64>>(
    c: &mut Comparison<R>,
    count: &[u8],
    each: &[u8],
    xs: &[T],
) {
    c.held(count, xs.len() as u64, number());
    for x in xs {
        c.held(each, (*x).into(), number());
    }
}

// The holes, each of the Rust's as its difference from the one before.
fn places_held<R: Print>(c: &mut Comparison<R>, places: &[u32], count: u64) {
    let mut place: u64 = 0;
    for k in 0..count {
        place = place.wrapping_add(number());
        c.held(b"hole", at(places, k), place);
    }
}

fn holes_held<R: Print>(c: &mut Comparison<R>, m: u64, bitmap: &[u64], places: &mut [u32]) {
    let count = number();
    match holes(m, bitmap, places) {
        Ok(n) => c.held(b"holes", n, count),
        Err(why) => c.held(b"holes refused", why.number(), 0),
    }
    places_held(c, places, count);
}

// The Rust swept all: the record, the seeds, the bitmap and the holes.
pub fn done_held<R: Print>(
    c: &mut Comparison<R>,
    m: u64,
    outcome: Result<Counts, Stop>,
    begins: &[u32],
    seeds: &[u16],
    bitmap: &[u64],
    places: &mut [u32],
) {
    c.held(b"refused", refused_by(outcome), 0);
    counts_held(c, outcome.unwrap_or(NO_KEYS), begins, seeds);
    all_held(c, b"seeds", b"seed", seeds);
    all_held(c, b"bitmap words", b"bitmap word", bitmap);
    holes_held(c, m, bitmap, places);
}

// The Rust stopped at a bucket: the record, and that seeds and bitmap are zero.
pub fn stopped_held<R: Print>(
    c: &mut Comparison<R>,
    refused: u64,
    outcome: Result<Counts, Stop>,
    seeds: &[u16],
    bitmap: &[u64],
) {
    c.held(b"refused", refused_by(outcome), refused);
    c.held(b"bucket", named_by(outcome), number());
    c.held(b"seeds left", nonzero(seeds), 0);
    c.held(b"bitmap words left", nonzero(bitmap), 0);
}
