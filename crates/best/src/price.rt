// What a rotation costs.
ghost use Rattle.std.specs.Prelude.{◌≡◌, ◌-◌, ◌^◌, ◌<◌};
ghost use Rattle.rings.specs.Ring.{Shape};
ghost use Rattle.rings.specs.Keys.{cost_at};
ghost use Rattle.best.specs.Best.{better};
ghost use Rattle.best.specs.Prices.{Prices};

use crate::Best;
use rings::Ring;

// The sum of the keys' entries of the table at rotation j.
pub fn cost(g: Ring, table: &[u32], keys: &[u64], j: usize) -> u64
    requires shape { Shape g }
    requires prices { Prices g table.now keys.now }
    requires j_bound { j < 65536 }
    ensures { (result ≡ cost_at g table.now keys.now j) × (result < 2 ^ 64 - 1) }
{
    let step = (j << g.t) as u64;
    let mask = ((g.n - 1) << g.t) as u64;
    let mut sum = 0;
    for &d in keys {
        let e = (d / 0x1_0000_0000 + ((d + step) & mask)) as usize;
        sum += u64::from(table[e]);
    }
    sum
}

// Rotation j of layout r at cost c where that is less than the best so far, which stays where it is not.
pub fn cheaper(c: u64, r: usize, j: usize, best: Best) -> Best
    ensures { result ≡ better c r j best }
{
    if c < best.cost {
        Best { cost: c, r, j }
    } else {
        best
    }
}

// The same with the cost that the keys have there.
pub fn better_of(g: Ring, table: &[u32], keys: &[u64], r: usize, j: usize, best: Best) -> Best
    requires shape { Shape g }
    requires prices { Prices g table.now keys.now }
    requires j_bound { j < 65536 }
    ensures { result ≡ better (cost_at g table.now keys.now j) r j best }
{
    let c = cost(g, table, keys, j);
    cheaper(c, r, j, best)
}
