// Compares the tables of logarithms with the Rust's own: reads what `oracle table N` writes for an N up to 131,072, and
// says how many entries differ. The file `stdin` is such a table of 2,048 entries.
#![tactic(auto)]

use comparing::{Comparison, number};
use log_table::making::make_logs;

// The entries of the longest table.
const MOST: usize = 131_072;

// Compares entry after entry with the Rust's, and where the house table has one, its entry too, until the Rust's end: a number that is not
// there is 0, and so is no entry from 2 on.
fn entries<R: Print>(c: &mut Comparison<R>, house: &[u32], table: &[u32]) {
    for (d, made) in table.iter().enumerate() {
        let rust = number();
        if 1 < d && rust == 0 {
            return;
        }
        c.case = d as u64;
        c.held(b"entry", u64::from(*made), rust);
        if let Some(entry) = house.get(d) {
            c.held(b"house entry", u64::from(*entry), rust);
        }
    }
}

fn main(rt: HostRuntime) {
    let house = log_table::house();
    let mut table = [0u32; MOST];
    if let Err(why) = make_logs(&mut table) {
        let _ = println!(rt; "refused {}", why.number());
        return;
    }
    let mut c = Comparison::new(&rt);
    entries(&mut c, &house, &table);
    c.close();
}
