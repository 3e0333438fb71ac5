// The free words that are not 0, listed, and one pass over them that prices every free rotation.
ghost use Rattle.std.specs.Prelude.{◌≡◌, ◌+◌, ◌*◌, ◌/◌, ◌%◌, ◌^◌, ◌≤◌, ◌<◌, length};
ghost use Rattle.rings.specs.Ring.{Shape};
ghost use Rattle.rings.specs.Parts.{part};
ghost use Rattle.best.specs.Prices.{Prices};
ghost use Rattle.best.specs.Kept.{Kept};
ghost use Rattle.best.specs.Flat.{row_of, flat_cost};
ghost use Rattle.best.specs.Listed.{Listed, Pass, Passed};

use crate::price::{cheaper, cost};
use crate::{Best, NOTHING};
use rings::Ring;

// Lists the words of work[to..to + bits] that are not 0, each with its number behind it, from work[list] on. A word that is 0 is written too, without a
// branch, and the next one takes its place.
pub fn list_words(work: &mut [u64], to: usize, bits: usize, list: usize)
    requires { (to + bits ≤ list) × (list + 2 * bits ≤ length work.old) }
    ensures { Listed (part work.old to bits) list bits work.new × Kept list work.old work.new }
{
    let mut c = list;
    for i in 0..bits {
        let f = work[to + i];
        work[c] = f;
        work[c + 1] = i as u64;
        c += 2 * usize::from(f != 0);
    }
}

// The rotation of number q, where a layout has 2^shift of them.
pub fn rotation_of(q: usize, shift: usize) -> usize
    requires { shift ≤ 16 }
    ensures { (result ≡ q % 2 ^ shift) × (result < 65536) }
{
    q & ((1usize << shift) - 1)
}

// What number q costs. Layout r has the `size` keys at work[at + r size..].
fn cost_of(
    g: Ring,
    table: &[u32],
    work: &[u64],
    at: usize,
    size: usize,
    shift: usize,
    q: usize,
) -> u64
    requires shape { Shape g }
    requires prices { Prices g table.now (row_of work.now at size shift q) }
    requires shift_bound { (shift ≤ 16) × (at + q / 2 ^ shift * size + size ≤ length work.now) }
    ensures { result ≡ flat_cost g table.now work.now at size shift q }
{
    let a = at + (q >> shift) * size;
    let j = rotation_of(q, shift);
    cost(g, table, &work[a..a + size], j)
}

// The best of the `total` free numbers that the words listed from work[list] on tell; its j is the number. Each step takes the lowest bit of a word and goes on
// to the next word without a branch where that was the last.
fn best_listed(
    g: Ring,
    table: &[u32],
    work: &mut [u64],
    at: usize,
    size: usize,
    shift: usize,
    list: usize,
    total: u64,
) -> Best
    requires { Pass g table.now work.old at size shift list total }
    ensures { Passed g table.now work.old at size shift list total result work.new }
{
    let mut best = NOTHING;
    let mut k = list;
    for _ in 0..total {
        let word = work[k];
        let q = 64 * work[k + 1] as usize + word.trailing_zeros() as usize;
        let c = cost_of(g, table, work, at, size, shift, q);
        best = cheaper(c, 0, q, best);
        let rest = word & (word - 1);
        work[k] = rest;
        k += 2 * usize::from(rest == 0);
    }
    best
}

// The same; a literal size has its loop over the keys unrolled. A const parameter would say no more than the literal: any other size wants the function
// without one as well.
pub fn best_sized(
    g: Ring,
    table: &[u32],
    work: &mut [u64],
    at: usize,
    size: usize,
    shift: usize,
    list: usize,
    total: u64,
) -> Best
    requires { Pass g table.now work.old at size shift list total }
    ensures { Passed g table.now work.old at size shift list total result work.new }
{
    match size {
        1 => best_listed(g, table, work, at, 1, shift, list, total),
        2 => best_listed(g, table, work, at, 2, shift, list, total),
        3 => best_listed(g, table, work, at, 3, shift, list, total),
        4 => best_listed(g, table, work, at, 4, shift, list, total),
        5 => best_listed(g, table, work, at, 5, shift, list, total),
        6 => best_listed(g, table, work, at, 6, shift, list, total),
        7 => best_listed(g, table, work, at, 7, shift, list, total),
        8 => best_listed(g, table, work, at, 8, shift, list, total),
        _ => best_listed(g, table, work, at, size, shift, list, total),
    }
}
