ghost use Rattle.std.specs.Prelude.{◌≡◌, ◌≤◌, ◌<◌, ◌^◌, nat_abs, length};
ghost use Rattle.window.specs.Key.{Within};
ghost use Rattle.window_runs.specs.Sized.{Sized};

// Sizes and weights from a small generator. A case has 1,400 buckets. Its kind is a number, which is printed and counted with.

fn next(x: u64) -> u64
    requires { x < 2147483648 }
    ensures { result < 2147483648 }
{
    (x * 1103515245 + 12345) % 2147483648
}

// A size: most below 8, most below 200, most empty or about 64, most empty, or some of 4,000 and more.
fn size(x: u64, kind: u64) -> u64
    requires { x < 2147483648 }
    ensures { result ≤ 4096 }
{
    let r = x / 8 % 1000;
    match kind {
        0 => r % 9,
        1 => r % 200,
        2 if r < 600 => 0,
        2 => 60 + r % 8,
        3 if r < 970 => 0,
        3 => 1 + r % 97,
        _ if r < 20 => 4096 - r,
        _ => r % 70,
    }
}

// The begins of 1,400 buckets.
pub fn begins(out: &mut [u32; 1401], seed: u64, kind: u64)
    requires { (seed < 1000) × (length out.old ≡ 1401) }
    ensures { Sized out.new }
{
    let mut x = seed;
    let mut total: u64 = 0;
    out[0] = 0;
    for b in 1..1401 {
        x = next(x);
        total += size(x, kind);
        out[b] = total as u32;
    }
}

fn pick(r: u64, a: i64, b: i64, c: i64) -> i64
    requires { (nat_abs a ≤ 2 ^ 32) × ((nat_abs b ≤ 2 ^ 32) × (nat_abs c ≤ 2 ^ 32)) }
    ensures { nat_abs result ≤ 2 ^ 32 }
{
    match r {
        0 => a,
        1 => b,
        _ => c,
    }
}

// A weight: one in steps of 1,024, so that ties are many, any small one, or one at ±2^32.
fn weight(x: u64, kind: u64) -> i64
    ensures { nat_abs result ≤ 2 ^ 32 }
{
    let r = x / 8 % 3;
    match kind {
        0 => pick(r, 0, 1024, 2048),
        1 => pick(r, -51234, 777, 60000),
        _ => pick(r, 4294967296, 0, -4294967296),
    }
}

pub fn weights(seed: u64, kind: u64) -> [i64; 7]
    requires { seed < 1000 }
    ensures { Within result }
{
    let mut w = [0i64; 7];
    let mut x = seed;
    for k in 0..7 {
        x = next(x);
        w[k] = weight(x, kind);
    }
    w
}
