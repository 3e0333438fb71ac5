// The best rotation at which no two keys meet, found by one pass over the free ones: each is priced once, and placed on trial only where it costs less than
// the best so far.
ghost use Rattle.std.specs.Prelude.{◌≡◌, ◌+◌, ◌*◌, ◌<◌};
ghost use Rattle.rings.specs.Keys.{cost_at};
ghost use Rattle.rings.specs.Parts.{part};
ghost use Rattle.best.specs.Best.{best_from};
ghost use Rattle.search.specs.Slots.{Unused};
ghost use Rattle.search.specs.Rows.{row_at, Found};
ghost use Rattle.search.specs.Distinct.{is_distinct, better_distinct, best_distinct, KeyRow, FreeRow, AllRows};

use crate::look::found;
use crate::row::Row;
use best::price::cost;
use best::rows::Rows;
use best::{Best, NOTHING};
use rings::Ring;
use rings::place::fits;

// Free rotation j of layout r where it costs less than the best so far and no two of its slots are one.
fn better_distinct(
    g: Ring,
    table: &[u32],
    work: &mut [u64],
    row: Row,
    r: usize,
    j: usize,
    best: Best,
) -> Best
    requires key_row { KeyRow g table.now work.old row.a row.size row.start }
    requires j_lt_n { j < g.n }
    requires unused { Unused g work.old row.start (part work.old row.a row.size) j }
    ensures { (result ≡ better_distinct g table.now row.start (part work.old row.a row.size) r j best) × (work.new ≡ work.old) }
{
    let c = cost(g, table, &work[row.a..row.a + row.size], j);
    if c < best.cost && fits(g, work, row.a, row.size, row.start, j) {
        return Best { cost: c, r, j };
    }
    best
}

// The free rotations of one word of layout r: 64 w and the 63 after it.
fn distinct_word(
    g: Ring,
    table: &[u32],
    work: &mut [u64],
    rows: Rows,
    start: usize,
    w: usize,
    r: usize,
    mut best: Best,
) -> Best
    requires key_row { KeyRow g table.now work.old (rows.at + r * rows.size) rows.size start }
    requires free_row { FreeRow g work.old (rows.at + r * rows.size) rows.size start (rows.to + r * rows.count) rows.count }
    requires w_lt_count { w < rows.count }
    ensures { (result ≡ best_from (cost_at g table.now (row_at work.old rows.at rows.size r)) (is_distinct g start (row_at work.old rows.at rows.size r) (row_at work.old rows.to rows.count r)) r best (64 * w) 64) × (work.new ≡ work.old) }
{
    let a = rows.keys(r);
    let row = Row {
        a,
        size: rows.size,
        start,
    };
    let f = rows.free(r);
    let mut left = work[f + w];
    // A walk from one to one of the word counts no index.
    while left != 0 {
        let j = 64 * w + left.trailing_zeros() as usize;
        best = better_distinct(g, table, work, row, r, j, best);
        left &= left - 1;
    }
    best
}

// The free rotations of layout r.
fn distinct_layout(
    g: Ring,
    table: &[u32],
    work: &mut [u64],
    rows: Rows,
    start: usize,
    r: usize,
    mut best: Best,
) -> Best
    requires key_row { KeyRow g table.now work.old (rows.at + r * rows.size) rows.size start }
    requires free_row { FreeRow g work.old (rows.at + r * rows.size) rows.size start (rows.to + r * rows.count) rows.count }
    ensures { (result ≡ best_from (cost_at g table.now (row_at work.old rows.at rows.size r)) (is_distinct g start (row_at work.old rows.at rows.size r) (row_at work.old rows.to rows.count r)) r best 0 g.n) × (work.new ≡ work.old) }
{
    for w in 0..rows.count {
        best = distinct_word(g, table, work, rows, start, w, r, best);
    }
    best
}

// The best of all layouts, where one was found. Nothing changes.
pub fn best_distinct(
    g: Ring,
    table: &[u32],
    work: &mut [u64],
    rows: Rows,
    start: usize,
) -> Option<Best>
    requires { AllRows g table.now work.old rows.at rows.size start rows.to rows.count rows.layouts }
    ensures { Found result (best_distinct g table.now work.old rows.at rows.size start rows.to rows.count rows.layouts) × (work.new ≡ work.old) }
{
    let mut best = NOTHING;
    for r in 0..rows.layouts {
        best = distinct_layout(g, table, work, rows, start, r, best);
    }
    found(best)
}
