// Runs the checks of settings and the bucket count at each of their limits and just beside.
#![tactic(auto)]

use rules::Settings;

// One line: m, log2_slice_len, ll, sb and B, and `fine` or the number that refuses them.
fn settings(rt: &impl Print, figures: [u64; 5]) {
    let [m, log2_slice_len, ll, sb, buckets] = figures;
    let s = Settings {
        m,
        log2_slice_len,
        ll,
        sb,
        buckets,
    };
    let _ = print!(rt; "{m} {log2_slice_len} {ll} {sb} {buckets} ");
    let _ = match geometry::settings::check_settings(s) {
        Ok(()) => println!(rt; "fine"),
        Err(why) => println!(rt; "refused {}", why.number()),
    };
}

// One line: the slice exponent, the keys, and the buckets at that size or the number that refuses it.
fn count(rt: &impl Print, log2_slice_len: u64, k: u64, size: f64) {
    let _ = match geometry::count::bucket_count(log2_slice_len, k, size) {
        Ok(n) => println!(rt; "{log2_slice_len} {k} buckets {n}"),
        Err(why) => println!(rt; "{log2_slice_len} {k} refused {}", why.number()),
    };
}

// Each of 1 to 7, and the nearest settings that pass it.
fn all_settings(rt: &impl Print) {
    for figures in [
        [7, 3, 0, 1, 1],
        [7, 3, 0, 2, 1],
        [7, 3, 0, 16, 1],
        [7, 3, 0, 17, 1],
        [7, 3, 4, 4, 1],
        [7, 3, 3, 4, 1],
        [7, 2, 0, 4, 1],
        [7, 16, 0, 4, 1],
        [7, 17, 0, 4, 1],
        [7, 3, 7, 8, 1],
        [7, 16, 2, 4, 1],
        [7, 16, 3, 4, 1],
        [7, 3, 4, 5, 1],
        [7, 3, 5, 6, 1],
        [0, 3, 0, 4, 1],
        [1, 3, 0, 4, 1],
        [134217728, 3, 0, 4, 67108865],
        [134217729, 3, 0, 4, 67108865],
        [7, 3, 0, 4, 0],
        [7, 3, 0, 4, 2],
        [7, 3, 0, 4, 67108865],
        [7, 3, 0, 4, 67108867],
        [4103, 3, 0, 4, 1],
        [4104, 3, 0, 4, 1],
    ] {
        settings(rt, figures);
    }
}

// The counts of document 01, the size's limits, and each refusal before the next.
fn all_counts(rt: &impl Print) {
    for (log2_slice_len, k, size) in [
        (10, 0, 4.0),
        (10, 9, 2.0),
        (10, 10, 4.0),
        (10, 16, 4.0),
        (10, 67108864, 64.0),
        (10, 67108864, 64.00000000000001),
        (10, 5, 1.0),
        (10, 5, 0.9999999999999999),
        (5, 5, 4.0),
        (5, 5, 4.000000000000001),
        (10, 5, 0.0 / 0.0),
        (10, 67108865, 1.0),
        (10, 67108865, 0.0 / 0.0),
        (2, 67108865, 0.0 / 0.0),
        (17, 5, 4.0),
    ] {
        count(rt, log2_slice_len, k, size);
    }
}

fn main(rt: HostRuntime) {
    all_settings(&rt);
    all_counts(&rt);
}
