// The input as it comes, byte by byte. However long it is, its form is followed to the end, and its first numbers are kept.
ghost use Rattle.std.specs.Prelude.{◌≡◌};
ghost use Rattle.house_numbers.specs.Decode.{grown_by};
ghost use Rattle.list_input.specs.Scan.{scan_start, scan_after, stored, scan_by, store_by, fed_scan, fed_numbers, scan_ends};

use crate::numbers::{form_ends, form_step};
use crate::{Form, KEPT, Scan};
use house_numbers::{Grown, Part, grow};

// Nothing read yet.
pub fn start() -> Scan
    ensures { result ≡ scan_start }
{
    Scan {
        part: Part::default(),
        form: Some(Form::Head(0)),
        count: 0,
    }
}

// One more number. It is kept if there is room; above `KEPT` the count stays.
#[tactic(auto, unfolding(crate::specs::Scan::scan_after, crate::specs::Scan::stored, crate::specs::Scan::form_then))]
fn take_number(scan: Scan, numbers: &mut [u64; KEPT], v: u64) -> Scan
    ensures value { result ≡ scan_after scan v }
    ensures numbers_after { numbers.new ≡ stored scan.count numbers.old v }
{
    if scan.count < KEPT {
        numbers[scan.count] = v;
    }
    Scan {
        part: Part::default(),
        form: scan.form.and_then(|form| form_step(form, v)),
        count: scan.count.saturating_add(1).min(KEPT + 1),
    }
}

// One more byte.
#[tactic(auto, unfolding(crate::specs::Scan::scan_by, crate::specs::Scan::store_by))]
fn take_byte(scan: Scan, numbers: &mut [u64; KEPT], byte: u8) -> Scan
    ensures value { result ≡ scan_by scan (grown_by scan.part byte) }
    ensures numbers_after { numbers.new ≡ store_by scan.count numbers.old (grown_by scan.part byte) }
{
    match grow(scan.part, byte) {
        Some(Grown::More(part)) => Scan { part, ..scan },
        Some(Grown::Whole(v)) => take_number(scan, numbers, v),
        None => Scan {
            part: Part::default(),
            form: None,
            ..scan
        },
    }
}

// Takes the next bytes of the input.
pub fn feed(scan: Scan, numbers: &mut [u64; KEPT], chunk: &[u8]) -> Scan
    ensures value { result ≡ fed_scan scan chunk.now }
    ensures numbers_after { numbers.new ≡ fed_numbers scan numbers.old chunk.now }
{
    let mut now = scan;
    for &byte in chunk {
        now = take_byte(now, numbers, byte);
    }
    now
}

// The input may end here without an error of form (18).
#[tactic(auto, unfolding(crate::specs::Scan::scan_ends))]
pub fn scan_ends(scan: Scan) -> bool
    ensures { result ≡ scan_ends scan }
{
    scan.part.groups == 0 && form_ends(scan.form)
}
