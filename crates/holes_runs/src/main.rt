// Runs `holes` on small bitmaps. One line a case: m, the bitmap's words and the buffer's length; the answer; and the whole buffer afterwards, in
// which each entry was 999. `expected.py` makes the file `stdout`, slot by slot.
#![tactic(auto)]

ghost use Rattle.std.specs.Prelude.{◌≤◌};

// Calls `holes` and writes the line.
fn run(rt: &impl Print, m: u64, bitmap: &[u64], out: &mut [u32]) {
    let _ = print!(rt; "{m} {} {} ", bitmap.len(), out.len());
    let _ = match holes::holes(m, bitmap, out) {
        Ok(n) => print!(rt; "holes {n} buffer"),
        Err(why) => print!(rt; "refused {} buffer", why.number()),
    };
    for x in out {
        let _ = print!(rt; " {x}");
    }
    let _ = println!(rt);
}

// One case, with a buffer of `room` entries.
fn case(rt: &impl Print, m: u64, bitmap: &[u64], room: usize)
    requires { room ≤ 130 }
{
    let mut out = [999u32; 130];
    run(rt, m, bitmap, &mut out[..room]);
}

// The cases of one m, whose bitmap has `words` words.
fn cases(rt: &impl Print, m: usize, words: usize)
    requires { (1 ≤ m) × (m ≤ 128) × (1 ≤ words) × (words ≤ 2) }
{
    let none = [0u64; 3];
    let all = [0xffff_ffff_ffff_ffffu64; 3];
    let some = [0x8000_0000_ffff_7ffeu64, 0x7fff_ffff_0000_0001, 0];
    let slots = m as u64;
    // none marked: the buffer one short, exactly full, one longer
    case(rt, slots, &none[..words], m - 1);
    case(rt, slots, &none[..words], m);
    case(rt, slots, &none[..words], m + 1);
    // all marked, the bits from m on too
    case(rt, slots, &all[..words], 0);
    case(rt, slots, &all[..words], 2);
    // some marked, and some bits from m on
    case(rt, slots, &some[..words], 70);
    // a bitmap one word short and one long
    case(rt, slots, &none[..words - 1], m);
    case(rt, slots, &none[..words + 1], m);
    // and a buffer too short as well
    case(rt, slots, &none[..words + 1], 0);
}

fn main(rt: HostRuntime) {
    cases(&rt, 1, 1);
    cases(&rt, 63, 1);
    cases(&rt, 64, 1);
    cases(&rt, 65, 2);
    cases(&rt, 127, 2);
    cases(&rt, 128, 2);
    // m outside its range, which goes before a bitmap of another length and a short buffer
    let none = [0u64; 1];
    case(&rt, 0, &none[..0], 4);
    case(&rt, 0, &none, 4);
    case(&rt, 134_217_729, &none, 4);
    case(&rt, 134_217_729, &none, 0);
    // the largest m: 13, since the bitmap has one word
    case(&rt, 134_217_728, &none, 4);
}
