ghost use Rattle.std.specs.Prelude.{◌≡◌, ◌+◌, ◌-◌, ◌≤◌, ◌<◌, ◌^◌, nat_abs, length};
ghost use Rattle.groups.specs.Groups.{size_in};
ghost use Rattle.window.specs.Large.{tell, key_in, better_of, first_of, Measured, Searched, Told, Largest, Left};

use crate::rule;

// The buckets of 64 keys and more. No queue has them: the window knows the one of them that goes first, and once that is
// taken looks through its untaken buckets for the next.

// A bucket and its key.
#[derive(Clone, Copy)]
pub struct Best {
    pub bucket: usize,
    pub key: i64,
}

// The better of `best` and bucket `b` of `size` keys, where that has 64 and more and is in the set.
fn better(
    set: &[u64; 16],
    w6: i64,
    w7: i64,
    best: Option<Best>,
    size: usize,
    b: usize,
) -> Option<Best>
    requires set_len { length set.now ≡ 16 }
    requires w6_bound { (nat_abs w6 ≤ 2 ^ 32) × (nat_abs w7 ≤ 2 ^ 32) }
    requires size_bound { (size ≤ 4096) × (b < 134217728) }
    ensures { result ≡ better_of set.now w6 w7 best size b }
{
    if size < 64 || !words::is_occupied(set, b % 1024) {
        return best;
    }
    let key = rule::key(rule::beyond(w6, w7, size), b);
    let new = Best { bucket: b, key };
    let Some(top) = best else {
        return Some(new);
    };
    if top.key < key { Some(new) } else { best }
}

// Of the buckets of the set from `o` on and below `e` that have 64 keys and more, the one of the greatest key.
fn largest(set: &[u64; 16], begins: &[u32], table: &[i64; 64], o: usize, e: usize) -> Option<Best>
    requires { Searched set.now begins.now table.now o e }
    ensures { Largest set.now begins.now table.now o e result }
{
    let w6 = table[6];
    let w7 = table[7];
    let mut best = None;
    for b in o..e {
        let size = groups::size_of(begins, b);
        best = better(set, w6, w7, best, size, b);
    }
    best
}

// The key of bucket `b` of 64 keys and more.
pub fn key_of(begins: &[u32], table: &[i64; 64], b: usize) -> i64
    requires measured { Measured begins.now table.now (b + 1) }
    requires bound { 64 ≤ size_in begins.now b }
    ensures { result ≡ key_in begins.now table.now b }
{
    let size = groups::size_of(begins, b);
    let w = rule::beyond(table[6], table[7], size);
    rule::key(w, b)
}

// The one of `large` and bucket `b` that goes first.
pub fn first_of(begins: &[u32], table: &[i64; 64], large: Option<usize>, b: usize) -> usize
    requires measured { Measured begins.now table.now (b + 1) }
    requires bound { 64 ≤ size_in begins.now b }
    requires told { Told begins.now b (tell large) }
    ensures { result + 1 ≡ first_of begins.now table.now (tell large) b }
{
    let Some(x) = large else {
        return b;
    };
    let k = key_of(begins, table, x);
    let l = key_of(begins, table, b);
    if k < l { b } else { x }
}

// What `large` becomes once bucket `b` is taken; the others lie from `o` on and below `e`.
pub fn left(
    set: &[u64; 16],
    begins: &[u32],
    table: &[i64; 64],
    large: Option<usize>,
    b: usize,
    o: usize,
    e: usize,
) -> Option<usize>
    requires searched { Searched set.now begins.now table.now o e }
    requires b_lt_e { b < e }
    ensures { Left set.now begins.now table.now (tell large) b o e (tell result) }
{
    if large != Some(b) {
        return large;
    }
    Some(largest(set, begins, table, o, e)?.bucket)
}
