// Number 28: a seed that no level has.
ghost use Rattle.std.specs.Prelude.{◌≡◌, not, ℕ, length};
ghost use Rattle.rules.specs.Lists.{below, every};
ghost use Rattle.checks.specs.Homes.{Begun};
ghost use Rattle.level_check.specs.Check.{seed_fits};
ghost use Rattle.level_check.specs.Walk.{seed_at};

use groups::size_of;

// A seed of the limit or more, or a nonzero one for an empty bucket.
#[tactic(auto, unfolding(crate::specs::Check::seed_fits))]
fn bad_seed(limit: u64, size: usize, seed: u16) -> bool
    ensures { result ≡ not (seed_fits limit size seed) }
{
    limit <= u64::from(seed) || (size == 0 && seed != 0)
}

// One of the seeds is bad.
pub fn seeds_bad(limit: u64, begins: &[u32], keys: usize, seeds: &[u16]) -> bool
    requires { Begun begins.now (length seeds.now) keys }
    ensures { result ≡ not (every (seed_at limit begins.now seeds.now) (below (length seeds.now))) }
{
    (0..seeds.len()).any(|b| bad_seed(limit, size_of(begins, b), seeds[b]))
}
