// Runs `sweep` at each of its numbers and just beside, in the order of the checks, and on the sheets of document 01. One line a case: m,
// log2_slice_len, ll, sb, B, whether bumping is allowed, the chunk count, the lengths of hashes, begins, table, seeds, bitmap and work; the answer; and everything
// lent for writing afterwards, with what lies behind it. `expected.py` makes the file `stdout`. Over 67,108,864 hashes are left out: no local array
// holds them.
#![tactic(auto)]

mod inputs;
mod lending;
mod numbers;
mod sheets;

fn main(rt: HostRuntime) {
    numbers::all(&rt);
    inputs::all(&rt);
    sheets::all(&rt);
}
