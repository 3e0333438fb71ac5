// The numbers 1 to 7.
use super::lending::{case, in_one};
use rules::Settings;

// Key 0 alone under the settings m, log2_slice_len, ll, sb and B, with buffers for one bucket and one bitmap word; all of work is lent. The first
// size has this weight.
fn weighed(rt: &impl Print, settings: [u64; 5], weight: i64) {
    let [m, log2_slice_len, ll, sb, buckets] = settings;
    let s = Settings {
        m,
        log2_slice_len,
        ll,
        sb,
        buckets,
    };
    case(
        rt,
        s,
        [weight, 0, 0, 0, 0, 0, 0],
        in_one(true),
        &[0],
        &[0, 1],
        log_table::house(),
        2048,
        1,
        1,
        15200,
    );
}

// 1 to 4, on both sides of each limit.
fn exponents(rt: &impl Print) {
    for settings in [
        [7, 3, 0, 1, 1],
        [7, 3, 0, 2, 1],
        [7, 3, 0, 16, 1],
        [7, 3, 0, 17, 1],
        [7, 3, 4, 4, 1],
        [7, 3, 3, 4, 1],
        [7, 2, 0, 4, 1],
        [7, 3, 0, 4, 1],
        [7, 16, 0, 4, 1],
        [7, 17, 0, 4, 1],
        [7, 16, 2, 4, 1],
        [7, 16, 3, 4, 1],
        [7, 4, 4, 5, 1],
        [7, 5, 4, 5, 1],
        [7, 3, 7, 8, 1],
    ] {
        weighed(rt, settings, 0);
    }
}

// 5 to 7, on both sides of each limit. The largest m, B and p that pass meet a later number.
fn sizes(rt: &impl Print) {
    for settings in [
        [0, 3, 0, 4, 1],
        [1, 3, 0, 4, 1],
        [134_217_728, 3, 0, 4, 67_108_865],
        [134_217_729, 3, 0, 4, 67_108_865],
        [7, 3, 0, 4, 0],
        [7, 3, 0, 4, 2],
        [7, 3, 0, 4, 67_108_867],
        [4103, 3, 0, 4, 1],
        [4104, 3, 0, 4, 1],
    ] {
        weighed(rt, settings, 0);
    }
}

// Of two neighbours the first comes: 1 and 2, and so on to 7 and 8.
fn neighbours(rt: &impl Print) {
    for (settings, weight) in [
        ([7, 3, 1, 1, 1], 0),
        ([7, 2, 4, 4, 1], 0),
        ([7, 17, 2, 4, 1], 0),
        ([0, 16, 3, 4, 1], 0),
        ([0, 3, 0, 4, 0], 0),
        ([134_217_728, 3, 0, 4, 2], 0),
        ([4104, 3, 0, 4, 1], 4_294_967_297),
    ] {
        weighed(rt, settings, weight);
    }
}

pub fn all(rt: &impl Print) {
    exponents(rt);
    sizes(rt);
    neighbours(rt);
}
