// Masks: sets of variables as the bits of a u64.
#![tactic(auto)]

ghost use Rattle.std.specs.Prelude.{◌≡◌, true, false, ◌<◌};
ghost use Rattle.masks.specs.Mask.{bit, put, within, size, subset, disjoint};
ghost use Rattle.masks.specs.Numbers.{Lowest};

// Bit i of the mask.
pub fn has_bit(mask: u64, i: u32) -> bool
    requires { i < 64 }
    ensures { result ≡ bit mask i }
{
    (mask >> i) % 2 == 1
}

// The mask with bit i set.
pub fn with_bit(mask: u64, i: u32) -> u64
    requires { i < 64 }
    ensures { result ≡ put mask i true }
{
    mask | (1u64 << i)
}

// The mask with bit i cleared.
pub fn without_bit(mask: u64, i: u32) -> u64
    requires { i < 64 }
    ensures { result ≡ put mask i false }
{
    mask ^ (mask & (1u64 << i))
}

// The number of set bits.
pub fn count_bits(mask: u64) -> u32
    ensures { result ≡ size mask }
{
    u64::count_ones(mask)
}

// The place of the lowest set bit of a mask that has one.
pub fn lowest_bit(mask: u64) -> u32
    requires { 0 < mask }
    ensures { Lowest (bit mask) result }
{
    u64::trailing_zeros(mask)
}

// No bit at n or above is set.
pub fn is_within(mask: u64, n: u32) -> bool
    requires { n < 64 }
    ensures { result ≡ within n mask }
{
    mask < (1u64 << n)
}

// Each bit of a is one of b.
pub fn is_subset(a: u64, b: u64) -> bool
    ensures { result ≡ subset a b }
{
    a & b == a
}

// No bit is in both.
pub fn is_disjoint(a: u64, b: u64) -> bool
    ensures { result ≡ disjoint a b }
{
    a & b == 0
}
