// One case: buffers full of rubbish are lent to a sweep, and what is in them afterwards is written.
ghost use Rattle.std.specs.Prelude.{◌≤◌, ◌<◌};

use rules::{How, Settings, SweepRecord};

// A name, and the numbers of a buffer.
fn put<T: Copy + Drop + Into<u64>>(rt: &impl Print, name: &str, xs: &[T]) {
    let _ = print!(rt; " {name}");
    for x in xs {
        let x: u64 = (*x).into();
        let _ = print!(rt; " {x}");
    }
}

// Where the words that are x, from `from` on, end.
fn end_of(xs: &[u64; 15200], from: usize, x: u64) -> usize {
    for i in from..xs.len() {
        if xs[i] != x {
            return i;
        }
    }
    xs.len()
}

// Where the zeros that work opens with end, and where the rubbish after them ends.
fn put_work(rt: &impl Print, xs: &[u64; 15200]) {
    let zeros = end_of(xs, 0, 0);
    let rubbish = end_of(xs, zeros, 0xffff_ffff_ffff_ffff);
    let _ = println!(rt; " work {zeros} {rubbish}");
}

fn put_settings(rt: &impl Print, s: Settings, how: How) {
    let bump = u64::from(how.bump);
    let _ = print!(rt;
        "{} {} {} {} {} {bump} {}",
        s.m, s.log2_slice_len, s.ll, s.sb, s.buckets, how.chunks
    );
}

fn put_record(rt: &impl Print, r: SweepRecord) {
    let _ = match r.outcome {
        Ok(c) => print!(rt; " done {} {} {}", c.placed, c.bumped, c.zero),
        Err(stop) => {
            let why = stop.why.number();
            match stop.bucket {
                None => print!(rt; " refused {why}"),
                Some(b) => print!(rt; " refused {why} {b}"),
            }
        }
    };
}

// Sweeps and writes the line up to the answer.
fn run(
    rt: &impl Print,
    s: Settings,
    weights: [i64; 7],
    how: How,
    hashes: &[u64],
    begins: &[u32],
    table: &[u32],
    seeds: &mut [u16],
    bitmap: &mut [u64],
    work: &mut [u64],
) {
    put_settings(rt, s, how);
    let _ = print!(rt;
        " {} {} {} {} {} {}",
        hashes.len(),
        begins.len(),
        table.len(),
        seeds.len(),
        bitmap.len(),
        work.len()
    );
    let record = sweep::sweep(s, weights, how, hashes, begins, table, seeds, bitmap, work);
    put_record(rt, record);
}

// In one chunk.
pub fn in_one(bump: bool) -> How {
    How { bump, chunks: 1 }
}

// A level of slices of 8 slots and one layout.
pub fn level(m: u64, sb: u64, buckets: u64) -> Settings {
    Settings {
        m,
        log2_slice_len: 3,
        ll: 0,
        sb,
        buckets,
    }
}

// One case, with so many entries of the table, and buffers of these lengths.
pub fn case(
    rt: &impl Print,
    s: Settings,
    weights: [i64; 7],
    how: How,
    hashes: &[u64],
    begins: &[u32],
    table: [u32; 2048],
    entries: usize,
    seeds: usize,
    bitmap: usize,
    work: usize,
)
    requires { (entries ≤ 2048) × ((seeds ≤ 6) × ((bitmap ≤ 4) × (work ≤ 15200))) }
{
    let mut given = [999u16; 6];
    let mut marked = [999u64; 4];
    let mut worked = [0xffff_ffff_ffff_ffffu64; 15200];
    run(
        rt,
        s,
        weights,
        how,
        hashes,
        begins,
        &table[..entries],
        &mut given[..seeds],
        &mut marked[..bitmap],
        &mut worked[..work],
    );
    put(rt, "seeds", &given);
    put(rt, "bitmap", &marked);
    put_work(rt, &worked);
}
