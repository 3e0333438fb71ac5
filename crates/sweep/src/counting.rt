// The counts of a finished sweep.
ghost use Rattle.std.specs.Prelude.{◌≡◌, ℕ, ◌+◌, ◌≤◌, ◌<◌, length};
ghost use Rattle.sweep.specs.Counting.{Counted, Regular};

use groups::size_of;
use rules::Counts;

// Keys placed, keys bumped and buckets whose seed is 0.
pub fn counted(begins: &[u32], seeds: &[u16]) -> Counts
    requires { Regular begins.now (length seeds.now) }
    ensures { Counted begins.now seeds.now (length seeds.now) result }
{
    let mut placed: u64 = 0;
    let mut bumped: u64 = 0;
    let mut zero: u64 = 0;
    for (b, seed) in seeds.iter().enumerate() {
        let size = size_of(begins, b) as u64;
        if *seed == 0 {
            bumped += size;
            zero += 1;
        } else {
            placed += size;
        }
    }
    Counts {
        placed,
        bumped,
        zero,
    }
}
