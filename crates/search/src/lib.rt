// Rule S: the seed of one bucket.
//
// Work, in words, where L is the number of layouts, z the largest bucket size and count = max(1, n / 64):
//   0                     the ring of used words, slots / 64 of them
//   at = slots / 64       ring keys, layout after layout: room for z L
//   mid = at + z L        hashes to sort: room for 2 z
//   to = at + z (L + 2)   free words, layout after layout: L count
//   to + L count          the free words that are not 0, listed with their numbers: 2 L count; or the wrap points of one layout: count
// All of it lies within W = slots / 32 + z (L + 2) + 3 L max(n, 64) + 2,560.
#![tactic(auto)]

ghost use Rattle.std.specs.Prelude.{◌≡◌, length};
ghost use Rattle.search.specs.Searching.{Searching, SeedFound};
ghost use Rattle.search.specs.WorkMap.{Retrying, Retried};

pub mod distinct;
pub mod look;
pub mod prepare;
pub mod row;
pub mod settle;
pub mod usual;

use crate::distinct::best_distinct;
use crate::look::{best_free, free_words};
use crate::prepare::prepare;
use crate::row::Row;
use crate::settle::{seed_of, settle};
use best::rows::Rows;
use geometry::shape::Geometry;
use rings::Ring;
use sorting::has_equal;

// The seed by a pass over all free rotations, for a bucket two of whose keys meet at the cheapest. Two equal hashes meet at every rotation.
fn search_distinct(
    ring: Ring,
    table: &[u32],
    keys: &[u64],
    start: usize,
    rows: Rows,
    mid: usize,
    bitmap: &mut [u64],
    work: &mut [u64],
) -> usize
    requires retrying { Retrying ring rows.layouts table.now keys.now start rows.at mid rows.to rows.count bitmap.old work.old }
    requires size { rows.size ≡ length keys.now }
    ensures { Retried ring rows.layouts table.now keys.now start rows.at mid rows.to rows.count bitmap.old work.old result bitmap.new work.new }
{
    if has_equal(keys, &mut work[mid..rows.to]) {
        return 0;
    }
    let Some(best) = best_distinct(ring, table, work, rows, start) else {
        return 0;
    };
    let a = rows.keys(best.r);
    let row = Row {
        a,
        size: rows.size,
        start,
    };
    settle(ring, work, row, best.j, bitmap);
    seed_of(ring, rows.layouts, best.r, best.j)
}

// The seed of bucket b, whose hashes are `keys`; its slots are marked in the ring and in the bitmap. Where no seed fits nothing is marked, and it is 0: by
// the format the seed of a bucket without slots.
pub fn search(
    g: Geometry,
    ring: Ring,
    table: &[u32],
    keys: &[u64],
    b: usize,
    z: usize,
    bitmap: &mut [u64],
    work: &mut [u64],
) -> usize
    requires { Searching g ring table.now keys.now b z bitmap.old work.old }
    ensures { SeedFound g ring table.now keys.now b z bitmap.old work.old result bitmap.new work.new }
{
    let layouts = g.layouts as usize;
    let start = g.first(b as u64) as usize;
    let count = free_words(ring);
    let at = ring.words;
    let mid = at + z * layouts;
    let to = at + z * (layouts + 2);
    let size = keys.len();
    let rows = Rows {
        at,
        size,
        to,
        count,
        layouts,
    };
    let total = prepare(g, ring, keys, start, work, rows);
    let Some(best) = best_free(ring, table, work, rows, total) else {
        return 0;
    };
    let a = rows.keys(best.r);
    let row = Row { a, size, start };
    if settle(ring, work, row, best.j, bitmap) {
        return seed_of(ring, layouts, best.r, best.j);
    }
    search_distinct(ring, table, keys, start, rows, mid, bitmap, work)
}
