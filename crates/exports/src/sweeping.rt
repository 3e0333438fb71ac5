// A sweep and its holes.
ghost use Rattle.std.specs.Prelude.{◌≡◌};
ghost use Rattle.rules.specs.Numbers.{lent_of};
ghost use Rattle.rules.specs.Order.{by_low_bits, input_of};
ghost use Rattle.rules.specs.Answers.{said_outcome, sweep_answer, sweep_seeds, sweep_bitmap, sweep_work, holes_answer, holes_out};
ghost use Rattle.exports.specs.Level.{settings_of, how_of};
ghost use Rattle.exports.specs.Told.{number_told, values_told, value_told, bucket_told};

use crate::level::settings_of;
use crate::telling::{tell, tell_stop};
use holes::holes;
use rules::{Counts, How, Stop};
use sweep::sweep;

// Tells how a sweep ended: its number, and the counts or the bucket that it names.
fn tell_outcome(outcome: Result<Counts, Stop>, counts: &mut [u64; 3], bucket: &mut u64) -> u64
    ensures answer { result ≡ number_told (said_outcome outcome) }
    ensures counted { counts.new ≡ values_told (said_outcome outcome) counts.old }
    ensures named { bucket.new ≡ bucket_told (said_outcome outcome) bucket.old }
{
    match outcome {
        Ok(c) => {
            *counts = [c.placed, c.bumped, c.zero];
            0
        }
        Err(stop) => tell_stop(stop, bucket),
    }
}

// Sweeps a level in at most so many chunks. 0: counts has keys placed, keys bumped and buckets of seed 0; 14: bucket has the one that got 0.
pub fn phastr_sweep(
    m: u64,
    log2_slice_len: u64,
    ll: u64,
    sb: u64,
    buckets: u64,
    weights: &[i64; 7],
    bump: bool,
    chunks: u64,
    hashes: &[u64],
    begins: &[u32],
    table: &[u32],
    seeds: &mut [u16],
    bitmap: &mut [u64],
    work: &mut [u64],
    counts: &mut [u64; 3],
    bucket: &mut u64,
) -> u64
    ensures answer { result ≡ number_told (sweep_answer by_low_bits (how_of bump chunks)
        (input_of (settings_of m log2_slice_len ll sb buckets) weights.now hashes.now begins.now table.now)
        (lent_of seeds.old bitmap.old work.old)) }
    ensures given { seeds.new ≡ sweep_seeds by_low_bits (how_of bump chunks)
        (input_of (settings_of m log2_slice_len ll sb buckets) weights.now hashes.now begins.now table.now)
        (lent_of seeds.old bitmap.old work.old) seeds.old }
    ensures marked { bitmap.new ≡ sweep_bitmap by_low_bits (how_of bump chunks)
        (input_of (settings_of m log2_slice_len ll sb buckets) weights.now hashes.now begins.now table.now)
        (lent_of seeds.old bitmap.old work.old) bitmap.old }
    ensures worked { work.new ≡ sweep_work (how_of bump chunks)
        (input_of (settings_of m log2_slice_len ll sb buckets) weights.now hashes.now begins.now table.now)
        (lent_of seeds.old bitmap.old work.old) work.old }
    ensures counted { counts.new ≡ values_told (sweep_answer by_low_bits (how_of bump chunks)
        (input_of (settings_of m log2_slice_len ll sb buckets) weights.now hashes.now begins.now table.now)
        (lent_of seeds.old bitmap.old work.old)) counts.old }
    ensures named { bucket.new ≡ bucket_told (sweep_answer by_low_bits (how_of bump chunks)
        (input_of (settings_of m log2_slice_len ll sb buckets) weights.now hashes.now begins.now table.now)
        (lent_of seeds.old bitmap.old work.old)) bucket.old }
{
    let s = settings_of(m, log2_slice_len, ll, sb, buckets);
    let record = sweep(
        s,
        *weights,
        How { bump, chunks },
        hashes,
        begins,
        table,
        seeds,
        bitmap,
        work,
    );
    tell_outcome(record.outcome, counts, bucket)
}

// Lists the unmarked slots below m. 0: count has how many there are.
pub fn phastr_holes(m: u64, bitmap: &[u64], out: &mut [u32], count: &mut u64) -> u64
    ensures answer { result ≡ number_told (holes_answer m bitmap.now out.old) }
    ensures buffer { out.new ≡ holes_out m bitmap.now out.old }
    ensures counted { count.new ≡ value_told (holes_answer m bitmap.now out.old) count.old }
{
    tell(holes(m, bitmap, out), count)
}
