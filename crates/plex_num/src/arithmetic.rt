// The arithmetic of the language: unsigned numbers of 32 bits, modulo 2^32.
ghost use Rattle.std.specs.Prelude.{◌≡◌, ◌+◌, ◌-◌, ◌*◌, ◌/◌, ◌%◌, ◌^◌, ◌<◌, ◌↔◌, IsTrue};
ghost use Rattle.std.specs.Prelude.{MatchOption, slice_index};

/// The sum, modulo 2^32.
pub fn add(a: u32, b: u32) -> u32
    ensures { result ≡ (a + b) % 2 ^ 32 }
{
    a.wrapping_add(b)
}

/// The difference, modulo 2^32.
pub fn sub(a: u32, b: u32) -> u32
    ensures { result ≡ (a + 2 ^ 32 - b) % 2 ^ 32 }
{
    a.wrapping_sub(b)
}

/// The product, modulo 2^32.
pub fn mul(a: u32, b: u32) -> u32
    ensures { result ≡ (a * b) % 2 ^ 32 }
{
    a.wrapping_mul(b)
}

/// The whole part of the quotient; `None` exactly where `b` is 0.
pub fn div(a: u32, b: u32) -> Option<u32>
    ensures { MatchOption result (b ≡ 0) (λ q. (0 < b) × (q ≡ a / b)) }
{
    a.checked_div(b)
}

/// What the division leaves; `None` exactly where `b` is 0.
pub fn rem(a: u32, b: u32) -> Option<u32>
    ensures { MatchOption result (b ≡ 0) (λ r. (0 < b) × (r ≡ a % b)) }
{
    a.checked_rem(b)
}

/// Whether the value is below 2^width, which is so for every width, in bits, from 32 on.
pub fn fits(value: u32, width: u8) -> bool
    ensures { IsTrue result ↔ (value < 2 ^ width) }
{
    if width >= 32 {
        return true;
    }
    value < 1 << width
}

/// The number at a place of a list, counted from 0; 0 past its end.
pub fn value_at(numbers: &[u32], place: usize) -> u32
    ensures { result ≡ slice_index numbers.now place }
{
    numbers.get(place).copied().unwrap_or(0)
}
