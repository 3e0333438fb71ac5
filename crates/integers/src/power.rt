// Powers of two.
ghost use Rattle.std.specs.Prelude.{◌≡◌, ◌+◌, ◌-◌, ◌*◌, ◌^◌, ◌≤◌};
ghost use Rattle.integers.specs.Power.{log_up, least_power};

// The least k with x <= 2^k.
pub fn log2_up(x: u64) -> u64
    ensures { (result ≡ log_up x) × (result ≤ 64) }
{
    u64::from(64 - x.saturating_sub(1).leading_zeros())
}

// The least power of two that is at least x.
pub fn next_power_of_two(x: u64) -> u64
    requires { x ≤ 2 ^ 63 }
    ensures { (result ≡ least_power x) × (1 ≤ result) × (x ≤ result) × (result ≤ 2 * (x - 1) + 1) }
{
    x.next_power_of_two()
}

// 2 to a small exponent.
pub fn power_of_two(k: u64) -> u64
    requires { k ≤ 16 }
    ensures { (result ≡ 2 ^ k) × (1 ≤ result) × (result ≤ 65536) }
{
    1 << k
}
