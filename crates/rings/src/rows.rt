// Rows: 64 slots that stand 2^t apart, as the bits of a word.
ghost use Rattle.std.specs.Prelude.{◌≡◌, ◌+◌, ◌*◌, ◌/◌, ◌%◌, ◌^◌, ◌<◌, ◌≤◌, length};
ghost use Rattle.rings.specs.Ring.{Shape};
ghost use Rattle.rings.specs.Rows.{Row, Turned, Wrapped, Ring64};

use crate::Ring;
use crate::slots::{bit_of, next_word, word_of};

// 64 bits from bit s of lo on, which go on in hi.
pub fn join(lo: u64, hi: u64, s: usize) -> u64
    requires { s < 64 }
    ensures { result ≡ (hi * 2 ^ 64 + lo) / 2 ^ s % 2 ^ 64 }
{
    (lo >> s) | ((hi << 1) << (63 - s))
}

// Bit i of the result is slot p + i 2^t.
pub fn row64(g: Ring, used: &[u64], p: usize) -> u64
    requires shape { Shape g }
    requires words_in_bounds { g.words ≤ length used.now }
    ensures { Row g.t g.words used.now p result }
{
    let w = word_of(g, p);
    let next = next_word(g, w);
    join(used[w], used[next], bit_of(g, p))
}

// The low n bits.
pub fn low_bits(row: u64, n: usize) -> u64
    requires { n ≤ 64 }
    ensures { result ≡ row % 2 ^ n }
{
    if n < 64 { row & ((1u64 << n) - 1) } else { row }
}

// The low n bits, turned so that bit x comes first; what stands above them is of no meaning.
fn turn(row: u64, n: usize, x: usize) -> u64
    requires { (n ≤ 64) × (x < n) }
    ensures { Turned n row x result }
{
    let low = low_bits(row, n);
    (low >> x) | (low << ((n - x) % 64))
}

// The low k bits of a, and above them those of b.
fn wrap(a: u64, b: u64, k: usize) -> u64
    requires { k < 64 }
    ensures { Wrapped a b k result }
{
    (a & ((1u64 << k) - 1)) | (b << k)
}

// Bit j of the result, for j below n, is the slot at place (x + j) mod n of the ring that starts at slot first.
pub fn ring64(g: Ring, used: &[u64], first: usize, x: usize) -> u64
    requires shape { Shape g }
    requires words_in_bounds { g.words ≤ length used.now }
    requires x_lt_n { (x < g.n) × (first < 2 ^ 63) }
    ensures { Ring64 g.t g.words g.n used.now first x result }
{
    let n = g.n;
    if n <= 64 {
        return turn(row64(g, used, first), n, x);
    }
    let row = row64(g, used, first + (x << g.t));
    if x + 64 <= n {
        return row;
    }
    wrap(row, row64(g, used, first), n - x)
}
