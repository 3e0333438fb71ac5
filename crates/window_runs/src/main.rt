#![tactic(auto)]

ghost use Rattle.std.specs.Prelude.{◌≤◌, ◌<◌};

// Runs made-up sizes and weights through the window and writes the order in which it takes the buckets, one line a case.
// `expected.py` makes the file `stdout`: it reads rule W off document 01, by a scan of the whole window at every turn.
mod made;
mod turns;

// One case: the buckets from lo up to hi of 1,400.
fn case(rt: &impl Print, seed: u64, kind: u64, lo: usize, hi: usize)
    requires { (seed < 1000) × ((kind < 5) × ((lo ≤ hi) × (hi ≤ 1400))) }
{
    let mut begins = [0u32; 1401];
    made::begins(&mut begins, seed, kind);
    let weights = made::weights(seed, (seed + kind) % 3);
    let _ = print!(rt; "{seed} {kind}:");
    turns::order(rt, &begins, weights, lo, hi);
    let _ = println!(rt);
}

fn main(rt: HostRuntime) {
    for seed in 0..3u64 {
        for kind in 0..5u64 {
            case(&rt, seed, kind, 0, 1400);
        }
    }
    // ranges: one that starts and ends inside, one about 1,024, an empty one
    case(&rt, 3, 4, 300, 1300);
    case(&rt, 4, 0, 1000, 1050);
    case(&rt, 5, 1, 7, 7);
}
