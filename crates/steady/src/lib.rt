// Two sweeps side by side, with what a change of the keys leaves as it was: early pages stay put, and the order of the
// keys inside a bucket is free.
#![tactic(auto)]

ghost use Rattle.rules.specs.Numbers.{lent_of};
ghost use Rattle.rules.specs.Order.{input_of};
ghost use Rattle.sweep.specs.Performing.{Left};
ghost use Rattle.steady.specs.Steady.{EarlyStay, OrderFree, RefusedAlike};

use rules::{How, Settings, SweepRecord};
use sweep::sweep;

// What two sweeps said.
#[derive(Clone, Copy)]
pub struct Both {
    pub one: SweepRecord,
    pub other: SweepRecord,
}

// Sweeps two families with the same settings, weights and table, each into buffers of its own.
pub fn sweep_both(
    settings: Settings,
    weights: [i64; 7],
    how: How,
    table: &[u32],
    hashes: &[u64],
    begins: &[u32],
    seeds: &mut [u16],
    bitmap: &mut [u64],
    work: &mut [u64],
    hashes2: &[u64],
    begins2: &[u32],
    seeds2: &mut [u16],
    bitmap2: &mut [u64],
    work2: &mut [u64],
) -> Both
    ensures one { Left (input_of settings weights hashes.now begins.now table.now) how
        seeds.old bitmap.old work.old result.one seeds.new bitmap.new work.new }
    ensures other { Left (input_of settings weights hashes2.now begins2.now table.now) how
        seeds2.old bitmap2.old work2.old result.other seeds2.new bitmap2.new work2.new }
    ensures early { EarlyStay how (input_of settings weights hashes.now begins.now table.now)
        (input_of settings weights hashes2.now begins2.now table.now)
        result.one result.other seeds.new seeds2.new }
    ensures free { OrderFree (input_of settings weights hashes.now begins.now table.now)
        (input_of settings weights hashes2.now begins2.now table.now)
        result.one result.other seeds.new seeds2.new bitmap.new bitmap2.new }
    ensures refused { RefusedAlike (input_of settings weights hashes.now begins.now table.now)
        (input_of settings weights hashes2.now begins2.now table.now)
        result.one result.other (lent_of seeds.old bitmap.old work.old)
        (lent_of seeds2.old bitmap2.old work2.old) }
{
    let one = sweep(
        settings, weights, how, hashes, begins, table, seeds, bitmap, work,
    );
    let other = sweep(
        settings, weights, how, hashes2, begins2, table, seeds2, bitmap2, work2,
    );
    Both { one, other }
}
