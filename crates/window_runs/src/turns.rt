ghost use Rattle.std.specs.Prelude.{◌≤◌};
ghost use Rattle.window.specs.Key.{Within};
ghost use Rattle.window_runs.specs.Sized.{Sized};

use window::Window;
use window::rule::weight_table;

// The order of the buckets from lo up to hi: turn after turn, writes the bucket that the window takes.
pub fn order(rt: &impl Print, begins: &[u32], weights: [i64; 7], lo: usize, hi: usize)
    requires sized { Sized begins.now }
    requires within { Within weights }
    requires lo_le_hi { (lo ≤ hi) × (hi ≤ 1400) }
{
    let table = weight_table(weights);
    let mut window = Window::new(lo);
    for _turn in 0..hi {
        window.refill(begins, &table, hi);
        if window.is_empty() {
            return;
        }
        let b = window.take(begins, &table);
        let _ = print!(rt; " {b}");
    }
}
