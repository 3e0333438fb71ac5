// Compares rule G with the Rust: reads what `oracle geometry` writes, works the same numbers out from the settings, and says how many differ.
// The input is the number of cases and for each: m, log2_slice_len, ll, sb, B; rule G's numbers; z and W; a count, and so many buckets with their
// first slices; a count, and so many hashes with a seed, the bucket, the slice, the offset and the position. The file `stdin` is one case in
// 101 of those with the fixed seed.
#![tactic(auto)]

use comparing::{Comparison, number};
use geometry::settings::check_settings;
use geometry::shape::Geometry;
use rules::Settings;

fn settings() -> Settings {
    let m = number();
    let log2_slice_len = number();
    let ll = number();
    let sb = number();
    let buckets = number();
    Settings {
        m,
        log2_slice_len,
        ll,
        sb,
        buckets,
    }
}

fn figures<R: Print>(c: &mut Comparison<R>, g: Geometry) {
    c.held(b"l", g.l, number());
    c.held(b"ns", g.slices, number());
    c.held(b"scale", g.scale, number());
    c.held(b"L", g.layouts, number());
    c.held(b"t", g.stride, number());
    c.held(b"n", g.ring, number());
    c.held(b"R", g.rotations, number());
    c.held(b"Q's high word", g.q_hi, number());
    c.held(b"Q's low word", g.q_lo, number());
    c.held(b"p", g.per_bucket, number());
    c.held(b"ring slots", g.slots, number());
    c.held(b"table entries", g.entries, number());
}

fn work<R: Print>(c: &mut Comparison<R>, g: Geometry) {
    let z = number().min(4096);
    c.held(b"W", g.work_words(z), number());
}

fn firsts<R: Print>(c: &mut Comparison<R>, g: Geometry) {
    for _ in 0..number() {
        let b = number().min(g.settings.buckets);
        c.held(b"first", g.first(b), number());
    }
}

fn places<R: Print>(c: &mut Comparison<R>, g: Geometry) {
    for _ in 0..number() {
        let h = number();
        let seed = (number() % 65536) as u16;
        c.held(b"bucket", g.bucket_of(h), number());
        c.held(b"slice", g.slice_of(h), number());
        c.held(b"offset", g.offset_of(h), number());
        c.held(b"position", g.position(h, seed), number());
    }
}

// One case. The Rust is asked only where the checks pass, so a number that refuses is a difference.
fn case<R: Print>(c: &mut Comparison<R>) {
    let s = settings();
    if let Err(why) = check_settings(s) {
        c.held(b"refused", why.number(), 0);
        return;
    }
    let g = Geometry::new(s);
    c.held(b"refused", 0, 0);
    figures(c, g);
    work(c, g);
    firsts(c, g);
    places(c, g);
}

fn main(rt: HostRuntime) {
    let mut c = Comparison::new(&rt);
    for i in 0..number() {
        c.case = i;
        case(&mut c);
    }
    c.close();
}
