// Makes a table of logarithms in a lent slice, by whole numbers only.
ghost use Rattle.std.specs.Prelude.{◌≡◌, ◌+◌, ◌-◌, ◌*◌, ◌/◌, ◌^◌, ◌≤◌, ◌<◌, length, get_or};
ghost use Rattle.log_table.specs.Logs.{digit, raised, log_entry, log_table, log_answer, logs_out};
ghost use Rattle.rules.specs.Answers.{said_checked};

use integers::product::mul_hi;
use rules::Refusal;

// Each squaring gives a bit of the logarithm: 24 of them, and one to round by.
const SQUARINGS: u64 = 25;

// x / 2^63 * 2^e, with x from 2^63 on: a number by its leading 64 bits.
#[derive(Clone, Copy)]
struct Leading {
    x: u64,
    e: u64,
}

impl Leading {
    // The square, as far as 64 bits tell it: its upper word, shifted up until it begins with a one.
    #[tactic(auto, unfolding(crate::specs::Logs::raised, crate::specs::Logs::digit))]
    fn squared(self) -> Leading
        requires { self.e < 2 ^ 62 }
        ensures { (result.x ≡ raised (self.x * self.x / 2 ^ 64)) × (result.e ≡ 2 * self.e + digit (self.x * self.x / 2 ^ 64)) }
    {
        let h = mul_hi(self.x, self.x);
        if h < 0x8000_0000_0000_0000 {
            Leading {
                x: 2 * h,
                e: 2 * self.e,
            }
        } else {
            Leading {
                x: h,
                e: 2 * self.e + 1,
            }
        }
    }
}

// 2^24 * log2(d), rounded.
fn log_entry(d: u64) -> u32
    requires { 1 ≤ d }
    ensures { result ≡ log_entry d }
{
    let zeros = d.leading_zeros();
    let mut p = Leading {
        x: d << zeros,
        e: (63 - zeros) as u64,
    };
    // The compiler unrolls this loop whole, as it does no `for`, by which a table takes a third more instructions.
    let mut n = SQUARINGS;
    while n > 0 {
        p = p.squared();
        n -= 1;
    }
    ((p.e + 1) / 2) as u32
}

// Entry d where the entries before it are there: an even d has 2^24 more than its half.
fn next_entry(table: &[u32], d: usize) -> u32
    requires { (1 ≤ d) × (d < length table.now) × (d < 2 ^ 63) × (get_or table.now (d / 2) 0 ≡ log_entry (d / 2)) × (log_entry (d / 2) < 2 ^ 31) }
    ensures { result ≡ log_entry d }
{
    if d % 2 == 0 {
        table[d / 2] + 0x100_0000
    } else {
        log_entry(d as u64)
    }
}

// Writes every entry of the table.
fn fill(table: &mut [u32])
    requires { (1 ≤ length table.old) × (length table.old ≤ 131072) }
    ensures { table.new ≡ log_table (length table.old) }
{
    table[0] = 0;
    for d in 1..table.len() {
        table[d] = next_entry(table, d);
    }
}

// Fills the table, whose length is from 1 to 131,072. Any other length is refused with 21, and nothing is written.
#[tactic(auto, unfolding(rules::specs::Answers::said_checked, rules::specs::Answers::unless, rules::specs::Answers::kept_unless, rules::specs::Numbers::first_of, crate::specs::Logs::log_lines, crate::specs::Logs::log_answer, crate::specs::Logs::logs_out))]
pub fn make_logs(table: &mut [u32]) -> Result<(), Refusal>
    ensures answer { said_checked result ≡ log_answer (length table.old) }
    ensures buffer { table.new ≡ logs_out table.old }
{
    if table.is_empty() || table.len() > 131_072 {
        return Err(Refusal::TableLength);
    }
    fill(table);
    Ok(())
}
