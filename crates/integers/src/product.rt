// The two words of the product of two u64, which has 128 bits.
ghost use Rattle.std.specs.Prelude.{◌≡◌, ◌-◌, ◌*◌, ◌/◌, ◌%◌, ◌^◌, ◌≤◌};

// The upper 64 bits of a * b.
pub fn mul_hi(a: u64, b: u64) -> u64
    ensures { (result ≡ a * b / 2 ^ 64) × (result ≤ a - 1) × (result ≤ b - 1) }
{
    ((a as u128 * b as u128) >> 64) as u64
}

// The lower 64 bits of a * b.
pub fn mul_lo(a: u64, b: u64) -> u64
    ensures { result ≡ a * b % 2 ^ 64 }
{
    a.wrapping_mul(b)
}
