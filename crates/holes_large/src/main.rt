// Lists the holes of a level of 134,217,728 slots, the most there can be, where standard input asks for it. Its bitmap takes 16 MiB of
// stack, more than a program is given unasked.
#![tactic(auto)]

// Lists the holes and says how it went, and what the list holds then.
fn list(rt: &impl Print, bitmap: &[u64; 2097152], out: &mut [u32; 4]) {
    let _ = match holes::holes(134_217_728, bitmap, out) {
        Ok(n) => print!(rt; "holes {n}"),
        Err(why) => print!(rt; "refused {}", why.number()),
    };
    let [a, b, c, d] = *out;
    let _ = println!(rt; " {a} {b} {c} {d}");
}

// Slot 0 and those that the last word leaves are holes; the list has room for four.
fn largest(rt: &impl Print, last: u64) {
    let mut bitmap = [0xffff_ffff_ffff_ffffu64; 2097152];
    bitmap[0] = 0xffff_ffff_ffff_fffe;
    bitmap[2097151] = last;
    list(rt, &bitmap, &mut [999; 4]);
}

fn main(rt: HostRuntime) {
    let mut asked = [0u8; 1];
    io::read_full(0, &mut asked);
    if asked[0] == b'1' {
        largest(&rt, 0x7fff_ffff_ffff_fffe);
        largest(&rt, 0xffff_ffff_ffff_ffff);
    } else {
        let _ = println!(rt; "not asked");
    }
}
