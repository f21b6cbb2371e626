//! Numbers of n bits, and the functions of the description language's expressions on them.
//!
//! A value of n bits is a number below `2^n`, n from 1 to 64. Each function is the arithmetic one; none allocates, and
//! each is a few machine instructions: sums and products wrap at 64 bits first and are cut to n bits then, which is the
//! same since `2^n` divides `2^64`.
//!
//! The definitions that they cite are what bodies mean by an operator. The operations of code and the strings of gates are
//! proved against these, so that a run and a circuit mean the same; whoever computes with such numbers elsewhere calls the
//! functions.

ghost use Rattle.std.specs.Prelude.{◌≡◌, ◌+◌, ◌-◌, ◌*◌, ◌%◌, ◌^◌, ◌<◌, ◌≤◌, bit_and, bit_or, bit_xor, if◌then◌else◌, ◌==◌};
ghost use Rattle.pg_word.specs.Bits.{IsWidth, sum_of, difference_of, product_of, complement_of, left_shifted, right_shifted, bits_between, joined, sign_extended, equal_bit, below_bit};

/// The sum of two values of n bits, modulo `2^n`.
pub fn add(n: u32, x: u64, y: u64) -> u64
    requires width { IsWidth n }
    ensures value { result ≡ sum_of n x y }
    ensures fits { result < 2 ^ n }
{
    low(n, x.wrapping_add(y))
}

/// The difference of two values of n bits, modulo `2^n`.
pub fn sub(n: u32, x: u64, y: u64) -> u64
    requires width { IsWidth n }
    requires y_fits { y < 2 ^ n }
    ensures value { result ≡ difference_of n x y }
    ensures fits { result < 2 ^ n }
{
    low(n, x.wrapping_sub(y))
}

/// The product of two values of n bits, modulo `2^n`.
pub fn mul(n: u32, x: u64, y: u64) -> u64
    requires width { IsWidth n }
    ensures value { result ≡ product_of n x y }
    ensures fits { result < 2 ^ n }
{
    low(n, x.wrapping_mul(y))
}

/// Each of the n bits of a value changed.
pub fn not(n: u32, x: u64) -> u64
    requires width { IsWidth n }
    requires x_fits { x < 2 ^ n }
    ensures value { result ≡ complement_of n x }
    ensures fits { result < 2 ^ n }
{
    ones(n) - x
}

/// Both values bit by bit.
pub fn and(n: u32, x: u64, y: u64) -> u64
    requires width { IsWidth n }
    requires x_fits { x < 2 ^ n }
    ensures value { result ≡ bit_and x y }
    ensures fits { result < 2 ^ n }
{
    x & y
}

/// One value or the other, bit by bit.
pub fn or(n: u32, x: u64, y: u64) -> u64
    requires width { IsWidth n }
    requires x_fits { x < 2 ^ n }
    requires y_fits { y < 2 ^ n }
    ensures value { result ≡ bit_or x y }
    ensures fits { result < 2 ^ n }
{
    x | y
}

/// One value but not both, bit by bit.
pub fn xor(n: u32, x: u64, y: u64) -> u64
    requires width { IsWidth n }
    requires x_fits { x < 2 ^ n }
    requires y_fits { y < 2 ^ n }
    ensures value { result ≡ bit_xor x y }
    ensures fits { result < 2 ^ n }
{
    x ^ y
}

/// 1 where two values are equal, else 0.
pub fn eq(x: u64, y: u64) -> u64
    ensures value { result ≡ equal_bit x y }
    ensures fits { result < 2 }
{
    u64::from(x == y)
}

/// 1 where the first value is below the second, else 0.
pub fn lt(x: u64, y: u64) -> u64
    ensures value { result ≡ below_bit x y }
    ensures fits { result < 2 }
{
    u64::from(x < y)
}

/// A value of n bits moved left by y places, zeros moved in; 0 where y is n or more.
pub fn shl(n: u32, x: u64, y: u64) -> u64
    requires width { IsWidth n }
    ensures value { result ≡ left_shifted n x y }
    ensures fits { result < 2 ^ n }
{
    if y < u64::from(n) { low(n, x << y) } else { 0 }
}

/// A value of n bits moved right by y places, zeros moved in; 0 where y is n or more.
pub fn shr(n: u32, x: u64, y: u64) -> u64
    requires width { IsWidth n }
    requires x_fits { x < 2 ^ n }
    ensures value { result ≡ right_shifted n x y }
    ensures fits { result < 2 ^ n }
{
    if y < u64::from(n) { x >> y } else { 0 }
}

/// Bits `k` to `h` of a value, `k <= h < 64`.
pub fn cut(x: u64, h: u32, k: u32) -> u64
    requires order { k ≤ h }
    requires within { h < 64 }
    ensures value { result ≡ bits_between x h k }
    ensures fits { result < 2 ^ (h - k + 1) }
{
    low(h - k + 1, x >> k)
}

/// `x` above the `low_width` bits of `y`, where both together have at most 64 bits.
pub fn cat(x: u64, low_width: u32, y: u64) -> u64
    requires width { IsWidth low_width }
    requires y_fits { y < 2 ^ low_width }
    requires fits { x * 2 ^ low_width + y < 2 ^ 64 }
    ensures value { result ≡ joined x low_width y }
{
    above(x, low_width, y)
}

/// A value of n bits widened to `to` bits by zeros.
pub fn ext(x: u64, n: u32, to: u32) -> u64
    requires width { IsWidth n }
    requires x_fits { x < 2 ^ n }
    requires wider { n ≤ to }
    requires most { to ≤ 64 }
    ensures value { result ≡ x }
    ensures fits { result < 2 ^ to }
{
    x
}

/// A value of n bits widened to `to` bits by copies of its top bit.
pub fn sext(x: u64, n: u32, to: u32) -> u64
    requires width { IsWidth n }
    requires x_fits { x < 2 ^ n }
    requires wider { n ≤ to }
    requires most { to ≤ 64 }
    ensures value { result ≡ sign_extended x n to }
    ensures fits { result < 2 ^ to }
{
    let top_bit = x >> (n - 1);
    x + top_bit * (ones(to) - ones(n))
}

/// `x` where the condition, a value of one bit, is 1, else `y`.
pub fn sel(c: u64, x: u64, y: u64) -> u64
    ensures value { result ≡ (if c == 1 then x else y) }
{
    if c == 1 { x } else { y }
}

/// `high` above the `width` bits of `low`. Where `width` is 64 the shift wraps to one by 0, but `high` is 0 then.
pub(crate) fn above(high: u64, width: u32, low: u64) -> u64
    requires low_fits { low < 2 ^ width }
    requires all_fit { high * 2 ^ width + low < 2 ^ 64 }
    ensures { result ≡ high * 2 ^ width + low }
{
    high.wrapping_shl(width) | low
}

/// The lowest n bits.
fn low(n: u32, x: u64) -> u64
    requires width { IsWidth n }
    ensures value { result ≡ x % 2 ^ n }
    ensures fits { result < 2 ^ n }
{
    x & ones(n)
}

/// n bits of 1.
fn ones(n: u32) -> u64
    requires width { IsWidth n }
    ensures { result ≡ 2 ^ n - 1 }
{
    u64::MAX >> (64 - n)
}
