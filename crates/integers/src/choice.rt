// The smaller and the larger of two numbers, and a difference that stops at 0.
ghost use Rattle.std.specs.Prelude.{◌≡◌, ◌-◌, min, max};

pub fn smaller(a: u64, b: u64) -> u64
    ensures { result ≡ min a b }
{
    a.min(b)
}

pub fn larger(a: u64, b: u64) -> u64
    ensures { result ≡ max a b }
{
    a.max(b)
}

// a - b, or 0 where b is larger.
pub fn less(a: u64, b: u64) -> u64
    ensures { result ≡ a - b }
{
    a.saturating_sub(b)
}
