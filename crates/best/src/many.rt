// The best free rotation, found by pricing the first free one of each segment between wrap points: inside a segment costs never fall.
ghost use Rattle.std.specs.Prelude.{◌≡◌, ◌+◌, ◌-◌, ◌*◌, ◌≤◌, length};
ghost use Rattle.rings.specs.Ring.{Shape};
ghost use Rattle.rings.specs.Keys.{cost_at};
ghost use Rattle.rings.specs.Parts.{part};
ghost use Rattle.best.specs.Best.{best_from};
ghost use Rattle.best.specs.Prices.{Prices, is_free, best_free};
ghost use Rattle.best.specs.Kept.{Kept};
ghost use Rattle.best.specs.Wraps.{Points};
ghost use Rattle.best.specs.Segments.{Rises};

use crate::price::better_of;
use crate::rows::Rows;
use crate::wraps::fill_wraps;
use crate::{Best, NOTHING};
use rings::Ring;
use words::next_set;

// The free rotations from begin up to end, where costs never fall: the first is enough.
fn best_segment(
    g: Ring,
    table: &[u32],
    keys: &[u64],
    free: &[u64],
    r: usize,
    begin: usize,
    end: usize,
    best: Best,
) -> Best
    requires shape { Shape g }
    requires prices { Prices g table.now keys.now }
    requires begin_le_end { (begin ≤ end) × (end ≤ 65536) × (end ≤ 64 * length free.now) }
    requires rises { Rises (cost_at g table.now keys.now) begin end }
    ensures { result ≡ best_from (cost_at g table.now keys.now) (is_free free.now) r best begin (end - begin) }
{
    let j = next_set(free, begin, end);
    if j < end {
        better_of(g, table, keys, r, j, best)
    } else {
        best
    }
}

// The free rotations of layout r, segment by segment.
fn best_segments(
    g: Ring,
    table: &[u32],
    keys: &[u64],
    free: &[u64],
    wraps: &[u64],
    r: usize,
    before: Best,
) -> Best
    requires shape { Shape g }
    requires prices { Prices g table.now keys.now }
    requires n_bound { (g.n ≤ 64 * length free.now) × (g.n ≤ 64 * length wraps.now) }
    requires points { Points g keys.now wraps.now }
    ensures { result ≡ best_from (cost_at g table.now keys.now) (is_free free.now) r before 0 g.n }
{
    let n = g.n;
    let mut best = before;
    let mut begin = 0;
    // No range: a step goes to the next wrap point, wherever that is.
    while begin < n {
        let end = next_set(wraps, begin + 1, n);
        best = best_segment(g, table, keys, free, r, begin, end, best);
        begin = end;
    }
    best
}

// The free rotations of layout r; work[up..up + rows.count] is overwritten.
fn best_between(
    g: Ring,
    table: &[u32],
    work: &mut [u64],
    rows: Rows,
    up: usize,
    r: usize,
    before: Best,
) -> Best
    requires shape { Shape g }
    requires prices { Prices g table.now (part work.old (rows.at + r * rows.size) rows.size) }
    requires size_bound { (rows.at + r * rows.size + rows.size ≤ up) × (rows.to + r * rows.count + rows.count ≤ up) × (up + rows.count ≤ length work.old) × (g.n ≤ 64 * rows.count) }
    ensures { (result ≡ best_from (cost_at g table.now (part work.old (rows.at + r * rows.size) rows.size)) (is_free (part work.old (rows.to + r * rows.count) rows.count)) r before 0 g.n) × Kept up work.old work.new }
{
    let Rows { size, count, .. } = rows;
    let a = rows.keys(r);
    let f = rows.free(r);
    fill_wraps(g, work, a, size, up, count);
    let v = &work[..];
    best_segments(
        g,
        table,
        &v[a..a + size],
        &v[f..f + count],
        &v[up..up + count],
        r,
        before,
    )
}

// The best free rotation of all layouts; work[up..up + rows.count] is overwritten.
pub fn best_many(g: Ring, table: &[u32], work: &mut [u64], rows: Rows, up: usize) -> Best
    requires shape { Shape g }
    requires prices { Prices g table.now (part work.old rows.at (rows.layouts * rows.size)) }
    requires size_bound { (rows.at + rows.layouts * rows.size ≤ rows.to) × (rows.to + rows.layouts * rows.count ≤ up) × (up + rows.count ≤ length work.old) × (g.n ≤ 64 * rows.count) }
    ensures { (result ≡ best_free g table.now (part work.old rows.at (rows.layouts * rows.size)) rows.size (part work.old rows.to (rows.layouts * rows.count)) rows.count rows.layouts) × Kept up work.old work.new }
{
    let mut best = NOTHING;
    for r in 0..rows.layouts {
        best = best_between(g, table, work, rows, up, r, best);
    }
    best
}
