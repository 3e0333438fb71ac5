// Replays the Rust's sweeps: reads what `oracle answered` writes (the table, the number of cases, and each case with the Rust's
// answer, in house numbers), sweeps each case, and says how many numbers differ. Before each sweep the seeds, the bitmap and the
// work hold rubbish. A case without room here is named, counted apart and not compared.
#![tactic(auto)]

mod answers;
mod reading;
mod rubbish;

use answers::{done_held, stopped_held};
use checks::check_all;
use comparing::Comparison;
use list_input::{bump_of, settings_of, weights_of};
use rules::{How, Refusal, Settings};
use sweep::sweep;

// What a sweep is given, and the number by which the Rust refused, or 0.
#[derive(Clone, Copy)]
struct Case<'a> {
    settings: Settings,
    weights: [i64; 7],
    how: How,
    hashes: &'a [u64],
    begins: &'a [u32],
    table: &'a [u32],
    refused: u64,
}

// The sweep of a case, and the Rust's answer. Of the work it needs `used` words, and gets a few more.
fn swept<R: Print>(
    c: &mut Comparison<R>,
    case: Case,
    seeds: &mut [u16],
    bitmap: &mut [u64],
    work: &mut [u64],
    places: &mut [u32],
    used: u64,
) {
    rubbish::in_seeds(seeds);
    rubbish::in_words(bitmap);
    rubbish::in_words(work);
    let here = sweep(
        case.settings,
        case.weights,
        case.how,
        case.hashes,
        case.begins,
        case.table,
        seeds,
        bitmap,
        work,
    )
    .outcome;
    c.held(b"work words wrong", rubbish::worked(work, used), 0);
    if case.refused != 0 {
        stopped_held(c, case.refused, here, seeds, bitmap);
    } else {
        done_held(c, case.settings.m, here, case.begins, seeds, bitmap, places);
    }
}

// A case whose hashes, begins, seeds and bitmap have room: the work must have, too. Whether it has.
fn fitted<R: Print>(
    c: &mut Comparison<R>,
    case: Case,
    seeds: &mut [u16],
    bitmap: &mut [u64],
    work: &mut [u64],
    places: &mut [u32],
) -> bool {
    let size = work.len();
    let used = match check_all(
        case.settings,
        case.weights,
        case.how,
        case.hashes,
        case.begins,
        case.table,
        seeds.len(),
        bitmap.len(),
        size,
    ) {
        Ok(room) => room.words,
        Err(Refusal::Lengths) => return false,
        Err(_) => 0,
    };
    let lent = used.wrapping_add(8).min(size as u64) as usize;
    let work = &mut work[..lent];
    swept(c, case, seeds, bitmap, work, places, used);
    true
}

// Reads a case and replays it, or passes over its answer where there is no room for it. Whether there is.
fn one_case<R: Print>(
    c: &mut Comparison<R>,
    table: &[u32],
    hashes: &mut [u64],
    begins: &mut [u32],
    seeds: &mut [u16],
    bitmap: &mut [u64],
    work: &mut [u64],
    places: &mut [u32],
) -> bool {
    let head = reading::head();
    let settings = settings_of(&head);
    let buckets = settings.buckets as usize;
    let slots = settings.m as usize;
    let words = slots.div_ceil(64);
    let ends = settings.buckets.wrapping_add(1) as usize;
    let keys = reading::groups(settings.buckets, hashes, begins) as usize;
    let refused = reading::number();
    let fits = keys <= hashes.len()
        && ends <= begins.len()
        && buckets <= seeds.len()
        && slots <= places.len()
        && words <= bitmap.len();
    if !fits {
        reading::skip_answer(refused);
        return false;
    }
    let case = Case {
        settings,
        weights: weights_of(&head),
        how: How {
            bump: bump_of(&head),
            chunks: 1,
        },
        hashes: &hashes[..keys],
        begins: &begins[..ends],
        table,
        refused,
    };
    let seeds = &mut seeds[..buckets];
    let bitmap = &mut bitmap[..words];
    let fits = fitted(c, case, seeds, bitmap, work, places);
    if !fits {
        reading::skip_answer(refused);
    }
    fits
}

// Replays so many cases, and gives how many of them were too large.
fn cases<R: Print>(
    rt: &R,
    c: &mut Comparison<R>,
    count: u64,
    table: &[u32],
    hashes: &mut [u64],
    begins: &mut [u32],
    seeds: &mut [u16],
    bitmap: &mut [u64],
    work: &mut [u64],
    places: &mut [u32],
) -> u64 {
    let mut large: u64 = 0;
    for i in 0..count {
        c.case = i;
        if !one_case(c, table, hashes, begins, seeds, bitmap, work, places) {
            let _ = println!(rt; "case {i}: too large");
            large = large.wrapping_add(1);
        }
    }
    large
}

fn main(rt: HostRuntime) {
    let mut table = [0u32; 131072];
    let mut hashes = [0u64; 131072];
    let mut begins = [0u32; 65537];
    let mut seeds = [0u16; 65536];
    let mut bitmap = [0u64; 4096];
    let mut work = [0u64; 262144];
    let mut places = [0u32; 262144];
    reading::table(&mut table);
    let count = reading::number();
    let mut c = Comparison::new(&rt);
    let large = cases(
        &rt,
        &mut c,
        count,
        &table,
        &mut hashes,
        &mut begins,
        &mut seeds,
        &mut bitmap,
        &mut work,
        &mut places,
    );
    let _ = println!(rt; "{count} cases, {large} too large");
    c.close();
}
