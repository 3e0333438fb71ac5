// The sweep that the numbers ask for, and its listing.
ghost use Rattle.std.specs.Prelude.{◌≡◌, true, ℕ, ◌+◌, ◌≤◌, ◌<◌, length};
ghost use Rattle.std.proofs.lemmas.List.Edits.{sets};
ghost use Rattle.rules.specs.Holes.{holes_of};
ghost use Rattle.rules.specs.Numbers.{bitmap_words, rising};
ghost use Rattle.rules.specs.Order.{input_of};
ghost use Rattle.log_table.specs.House.{house_table};
ghost use Rattle.groups.specs.Groups.{Grouped};
ghost use Rattle.list_input.specs.Form.{well_formed};
ghost use Rattle.list_output.specs.Text.{done_text};
ghost use Rattle.listing.specs.Listing.{swept_text, asked_text};

use crate::over_work;
use holes::holes;
use list_input::{bump_of, over_size, settings_of, split, weights_of};
use list_output::{done_text, refused_text};
use rules::{Counts, How, Refusal, Settings};
use sweep::sweep;

// The listing of a sweep that was done: lists the holes of its bitmap and prints all.
fn listed(
    m: u64,
    keys: u64,
    counts: Counts,
    begins: &[u32],
    seeds: &[u16],
    bitmap: &[u64],
    out: &mut [u8],
) -> usize
    requires le_m { (1 ≤ m) × (m ≤ 1024) × (length bitmap.now ≡ bitmap_words m) × (length seeds.now ≤ 64) × (32768 ≤ length out.old) }
    requires by_index { (b : ℕ) → b < length seeds.now → Grouped begins.now b }
    ensures value { (result ≡ length (done_text m keys counts begins.now seeds.now (holes_of m bitmap.now))) × (result ≤ 32768) }
    ensures out_after { out.new ≡ sets out.old 0 (done_text m keys counts begins.now seeds.now (holes_of m bitmap.now)) }
{
    let mut slots = [0u32; 1024];
    // It is no refusal: m and the bitmap's length are right, and there is room for every slot.
    let found = holes(m, bitmap, &mut slots).unwrap() as usize;
    done_text(m, keys, counts, begins, seeds, &slots[..found], out)
}

// The sweep, in one chunk, in buffers of the lengths wanted, and what is printed of it.
fn swept(
    settings: Settings,
    weights: [i64; 7],
    bump: bool,
    hashes: &[u64],
    begins: &[u32],
    table: &[u32],
    seeds: &mut [u16],
    bitmap: &mut [u64],
    work: &mut [u64],
    out: &mut [u8],
) -> usize
    requires m_bound { (settings.m ≤ 1024) × (settings.buckets ≤ 64) × (32768 ≤ length out.old) }
    requires seeds_len { (length seeds.old ≡ settings.buckets) × (length bitmap.old ≡ bitmap_words settings.m) × (length work.old ≡ 8192) }
    requires by_index { (b : ℕ) → b < settings.buckets → Grouped begins.now b }
    ensures value { (result ≡ length (swept_text bump (input_of settings weights hashes.now begins.now table.now))) × (result ≤ 32768) }
    ensures out_after { out.new ≡ sets out.old 0 (swept_text bump (input_of settings weights hashes.now begins.now table.now)) }
{
    let how = How { bump, chunks: 1 };
    let r = sweep(
        settings, weights, how, hashes, begins, table, seeds, bitmap, work,
    );
    match r.outcome {
        Err(stop) => refused_text(stop, out),
        Ok(counts) => listed(
            settings.m,
            hashes.len() as u64,
            counts,
            begins,
            seeds,
            bitmap,
            out,
        ),
    }
}

// The same with the house table, in buffers of its own.
fn swept_alone(
    settings: Settings,
    weights: [i64; 7],
    bump: bool,
    hashes: &[u64],
    begins: &[u32],
    out: &mut [u8],
) -> usize
    requires m_bound { (settings.m ≤ 1024) × (settings.buckets ≤ 64) × (32768 ≤ length out.old) }
    requires by_index { (b : ℕ) → b < settings.buckets → Grouped begins.now b }
    ensures value { (result ≡ length (swept_text bump (input_of settings weights hashes.now begins.now house_table))) × (result ≤ 32768) }
    ensures out_after { out.new ≡ sets out.old 0 (swept_text bump (input_of settings weights hashes.now begins.now house_table)) }
{
    let table = log_table::house();
    let mut seeds = [0u16; 64];
    let mut bitmap = [0u64; 16];
    let mut work = [0u64; 8192];
    let buckets = settings.buckets as usize;
    let words = settings.m.div_ceil(64) as usize;
    swept(
        settings,
        weights,
        bump,
        hashes,
        begins,
        &table,
        &mut seeds[..buckets],
        &mut bitmap[..words],
        &mut work,
        out,
    )
}

// What is printed for the numbers of an input without errors of form: 19, or the sweep.
pub fn asked(ns: &[u64], out: &mut [u8]) -> usize
    requires ns_value { well_formed ns.now ≡ true }
    requires in_bounds { 32768 ≤ length out.old }
    ensures value { (result ≡ length (asked_text ns.now)) × (result ≤ 32768) }
    ensures out_after { out.new ≡ sets out.old 0 (asked_text ns.now) }
{
    if over_size(ns) {
        return refused_text(Refusal::TooLarge.into(), out);
    }
    let mut hashes = [0u64; 128];
    let mut begins = [0u32; 65];
    let keys = split(ns, &mut hashes, &mut begins);
    let settings = settings_of(ns);
    let ends = settings.buckets as usize + 1;
    if over_work(settings, &begins[..ends]) {
        return refused_text(Refusal::TooLarge.into(), out);
    }
    swept_alone(
        settings,
        weights_of(ns),
        bump_of(ns),
        &hashes[..keys],
        &begins[..ends],
        out,
    )
}
