// The best free rotation of a bucket: the cheapest of those that the free words tell.
ghost use Rattle.std.specs.Prelude.{◌≡◌, ◌+◌, ◌*◌};
ghost use Rattle.rings.specs.Ring.{Shape};
ghost use Rattle.rings.specs.Parts.{part};
ghost use Rattle.best.specs.Prices.{best_free};
ghost use Rattle.best.specs.Kept.{Kept};
ghost use Rattle.best.specs.Looking.{Looking};
ghost use Rattle.search.specs.Rows.{FreeWords, Found};

use best::all::best_all;
use best::many::best_many;
use best::rows::Rows;
use best::{Best, NOTHING};
use rings::Ring;

// How many words hold the free bits of a layout.
pub fn free_words(g: Ring) -> usize
    requires { Shape g }
    ensures { FreeWords g.n result }
{
    (g.n / 64).max(1)
}

// With at most so many free rotations all of them are priced.
const FEW: u64 = 32;

// The best, where anything was found.
pub fn found(best: Best) -> Option<Best>
    ensures { Found result best }
{
    if best.cost == NOTHING.cost {
        None
    } else {
        Some(best)
    }
}

// The best free rotation, where one is free: `total` are, and the words behind the last free ones are scratch. Where these rotations are few all of them are
// priced, else the first free one of each segment between wrap points.
pub fn best_free(g: Ring, table: &[u32], work: &mut [u64], rows: Rows, total: u64) -> Option<Best>
    requires { Looking g table.now work.old rows.at rows.size rows.to rows.count rows.layouts total }
    ensures { Found result (best_free g table.now (part work.old rows.at (rows.layouts * rows.size)) rows.size (part work.old rows.to (rows.layouts * rows.count)) rows.count rows.layouts) × Kept (rows.to + rows.layouts * rows.count) work.old work.new }
{
    match total {
        0 => None,
        1..=FEW => found(best_all(g, table, work, rows, total)),
        _ => found(best_many(g, table, work, rows, rows.end())),
    }
}
