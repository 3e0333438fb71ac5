// The two things that the program prints: a refusal, or the listing of a sweep.
ghost use Rattle.std.specs.Prelude.{◌≡◌, [], ◌∷◌, ℕ, ◌+◌, ◌*◌, ◌≤◌, ◌<◌, length};
ghost use Rattle.std.proofs.lemmas.List.Edits.{sets};
ghost use Rattle.rules.specs.Lists.{below, concat_map};
ghost use Rattle.rules.specs.Answers.{number_of, named_by};
ghost use Rattle.groups.specs.Groups.{Grouped};
ghost use Rattle.list_output.specs.Text.{line, bucket_word, refused_text, bucket_line, hole_line, sweep_line, done_text};

use crate::lines::put_line;
use groups::size_of;
use rules::{Counts, Stop};

// `refused N`, whatever the number, and the bucket where one is named.
pub fn refused_line(number: u64, bucket: Option<u64>, out: &mut [u8]) -> usize
    requires { 50 ≤ length out.old }
    ensures value { (result ≡ length (refused_text number (named_by bucket))) × (result ≤ 50) }
    ensures out_after { out.new ≡ sets out.old 0 (refused_text number (named_by bucket)) }
{
    match bucket {
        Some(named) => put_line(out, 0, b"refused", &[number, named]),
        None => put_line(out, 0, b"refused", &[number]),
    }
}

// The line of a refusal.
pub fn refused_text(stop: Stop, out: &mut [u8]) -> usize
    requires { 50 ≤ length out.old }
    ensures value { (result ≡ length (refused_text (number_of stop.why) (named_by stop.bucket))) × (result ≤ 50) }
    ensures out_after { out.new ≡ sets out.old 0 (refused_text (number_of stop.why) (named_by stop.bucket)) }
{
    refused_line(stop.why.number(), stop.bucket, out)
}

// The line of a bucket.
fn bucket_line(out: &mut [u8], at: usize, number: u64, keys: u64, seed: u64) -> usize
    requires { at + 70 ≤ length out.old }
    ensures value { (result ≡ at + length (line bucket_word (number ∷ keys ∷ seed ∷ []))) × (result ≤ at + 70) }
    ensures out_after { out.new ≡ sets out.old at (line bucket_word (number ∷ keys ∷ seed ∷ [])) }
{
    put_line(out, at, b"bucket", &[number, keys, seed])
}

// A line for each bucket.
fn bucket_lines(out: &mut [u8], at: usize, begins: &[u32], seeds: &[u16]) -> usize
    requires seeds_in_bounds { at + 70 * length seeds.now ≤ length out.old }
    requires by_index { (b : ℕ) → b < length seeds.now → Grouped begins.now b }
    ensures value { (result ≡ at + length (concat_map (bucket_line begins.now seeds.now) (below (length seeds.now)))) × (result ≤ at + 70 * length seeds.now) }
    ensures out_after { out.new ≡ sets out.old at (concat_map (bucket_line begins.now seeds.now) (below (length seeds.now))) }
{
    let mut place = at;
    for (b, &seed) in seeds.iter().enumerate() {
        let keys = size_of(begins, b);
        place = bucket_line(out, place, b as u64, keys as u64, seed as u64);
    }
    place
}

// The line of a hole.
fn hole_line(out: &mut [u8], at: usize, slot: u64) -> usize
    requires { at + 26 ≤ length out.old }
    ensures value { (result ≡ at + length (hole_line slot)) × (result ≤ at + 26) }
    ensures out_after { out.new ≡ sets out.old at (hole_line slot) }
{
    put_line(out, at, b"hole", &[slot])
}

// A line for each hole.
fn hole_lines(out: &mut [u8], at: usize, holes: &[u32]) -> usize
    requires { at + 26 * length holes.now ≤ length out.old }
    ensures value { (result ≡ at + length (concat_map hole_line holes.now)) × (result ≤ at + 26 * length holes.now) }
    ensures out_after { out.new ≡ sets out.old at (concat_map hole_line holes.now) }
{
    let mut place = at;
    for &hole in holes {
        place = hole_line(out, place, hole as u64);
    }
    place
}

// The line of the sweep: m, B, keys, placed, bumped, zero, holes.
fn sweep_line(m: u64, buckets: u64, keys: u64, counts: Counts, holes: u64, out: &mut [u8]) -> usize
    requires { 153 ≤ length out.old }
    ensures value { (result ≡ length (sweep_line m buckets keys counts holes)) × (result ≤ 153) }
    ensures out_after { out.new ≡ sets out.old 0 (sweep_line m buckets keys counts holes) }
{
    let Counts {
        placed,
        bumped,
        zero,
    } = counts;
    put_line(
        out,
        0,
        b"sweep",
        &[m, buckets, keys, placed, bumped, zero, holes],
    )
}

// The listing of a sweep that was done.
pub fn done_text(
    m: u64,
    keys: u64,
    counts: Counts,
    begins: &[u32],
    seeds: &[u16],
    holes: &[u32],
    out: &mut [u8],
) -> usize
    requires holes_in_bounds { 153 + 70 * length seeds.now + 26 * length holes.now ≤ length out.old }
    requires by_index { (b : ℕ) → b < length seeds.now → Grouped begins.now b }
    ensures value { (result ≡ length (done_text m keys counts begins.now seeds.now holes.now)) × (result ≤ 153 + 70 * length seeds.now + 26 * length holes.now) }
    ensures out_after { out.new ≡ sets out.old 0 (done_text m keys counts begins.now seeds.now holes.now) }
{
    let after_sweep = sweep_line(m, seeds.len() as u64, keys, counts, holes.len() as u64, out);
    let after_buckets = bucket_lines(out, after_sweep, begins, seeds);
    hole_lines(out, after_buckets, holes)
}
