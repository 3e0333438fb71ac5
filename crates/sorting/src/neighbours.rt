// Equal neighbours of a run.
ghost use Rattle.std.specs.Prelude.{◌≡◌};
ghost use Rattle.sorting.specs.Runs.{twins};

// Whether a key of the run equals the one after it.
pub fn equal_neighbours(run: &[u64]) -> bool
    ensures { result ≡ twins run.now }
{
    for pair in run.windows(2) {
        if pair[0] == pair[1] {
            return true;
        }
    }
    false
}
