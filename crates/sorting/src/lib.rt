// Whether two of a bucket's hashes are equal (rule S: then the bucket gets seed 0).
// The keys are sorted into lent work, and equal keys are then neighbours.
#![tactic(auto)]

ghost use Rattle.std.specs.Prelude.{◌≡◌, not, ◌*◌, ◌≤◌, length, drop};
ghost use Rattle.rules.specs.Lists.{distinct};

mod neighbours;
mod sort;

use crate::neighbours::equal_neighbours;
use crate::sort::sort_into;

// Whether two of the keys are equal. The first 2·len words of work are scratch.
pub fn has_equal(keys: &[u64], work: &mut [u64]) -> bool
    requires { 2 * length keys.now ≤ length work.old }
    ensures answer { result ≡ not (distinct keys.now) }
    ensures beyond { drop (2 * length keys.now) work.new ≡ drop (2 * length keys.now) work.old }
    ensures long { length work.new ≡ length work.old }
{
    let n = keys.len();
    let end = 2 * n;
    sort_into(keys, &mut work[..end]);
    equal_neighbours(&work[..n])
}
