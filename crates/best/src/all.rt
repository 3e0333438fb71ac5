// The best free rotation, found by pricing every one that is free.
ghost use Rattle.std.specs.Prelude.{◌≡◌, ◌+◌, ◌*◌, ◌≤◌};
ghost use Rattle.rings.specs.Parts.{part};
ghost use Rattle.best.specs.Prices.{best_free};
ghost use Rattle.best.specs.Kept.{Kept};
ghost use Rattle.best.specs.Flat.{layout_of};
ghost use Rattle.best.specs.Looking.{Looking};

use crate::Best;
use crate::listed::{best_sized, list_words, rotation_of};
use crate::rows::Rows;
use rings::Ring;

// The best number of a rotation as its layout and its rotation there.
fn layout_of(best: Best, shift: usize) -> Best
    requires { shift ≤ 16 }
    ensures { result ≡ layout_of shift best }
{
    let q = best.j;
    Best {
        r: q >> shift,
        j: rotation_of(q, shift),
        ..best
    }
}

// The best free rotation of all layouts, `total` of which are free. Twice as many words as the free ones, behind the last of these, are overwritten.
pub fn best_all(g: Ring, table: &[u32], work: &mut [u64], rows: Rows, total: u64) -> Best
    requires { Looking g table.now work.old rows.at rows.size rows.to rows.count rows.layouts total }
    ensures { (result ≡ best_free g table.now (part work.old rows.at (rows.layouts * rows.size)) rows.size (part work.old rows.to (rows.layouts * rows.count)) rows.count rows.layouts) × Kept (rows.to + rows.layouts * rows.count) work.old work.new }
{
    let bits = rows.layouts * rows.count;
    let list = rows.to + bits;
    list_words(work, rows.to, bits, list);
    let shift = rows.count.trailing_zeros() as usize + 6;
    let best = best_sized(g, table, work, rows.at, rows.size, shift, list, total);
    layout_of(best, shift)
}
