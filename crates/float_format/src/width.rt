// A format's numbers, generic over the width: `field_sizes` works them out from the two sizes that a `Pattern` has, so that the compiler folds all of
// this. Not entry points: what takes a pattern as a word asks that it fits one.
ghost use Rattle.std.specs.Prelude.{◌≡◌, false, ◌-◌, ◌*◌, ◌%◌, ◌^◌, ◌<◌, ◌≤◌};
ghost use Rattle.float_format.specs.Format.{sign_bit, top_field, infinity, unsigned, exponent_field, quieted, propagated, default_nan};
ghost use Rattle.float_format.specs.Number.{encode, bias, leading_shift, rank};
ghost use Rattle.float_format.specs.Rounding.{parts};
ghost use Rattle.float_format.specs.declared.Direction.TheVariants.{HalfEven};

use crate::{Pattern, field_sizes};

pub fn power(k: u64) -> u64
    requires { k < 64 }
    ensures { result ≡ 2 ^ k }
{
    1 << k
}

// One more than the largest fraction: the weight of the exponent field's lowest bit.
pub fn unit<P: Pattern>() -> u64
    ensures { result ≡ 2 ^ P.format.fraction }
{
    power(P::fraction_bits())
}

pub fn sign_bit<P: Pattern>() -> u64
    ensures { result ≡ sign_bit P.format }
{
    field_sizes::sign_bit(P::fraction_bits(), P::exponent_bits())
}

pub fn top_field<P: Pattern>() -> u64
    ensures { result ≡ top_field P.format }
{
    field_sizes::top_field(P::fraction_bits(), P::exponent_bits())
}

pub fn bias_of<P: Pattern>() -> u64
    ensures { result ≡ bias P.format }
{
    field_sizes::bias_of(P::fraction_bits(), P::exponent_bits())
}

pub fn infinity_of<P: Pattern>() -> u64
    ensures { result ≡ infinity P.format }
{
    field_sizes::infinity_of(P::fraction_bits(), P::exponent_bits())
}

pub fn default_nan<P: Pattern>() -> u64
    ensures { (result ≡ default_nan P.format) × (result < 2 * sign_bit P.format) }
{
    match P::known_default_nan() {
        Some(word) => word,
        None => infinity_of::<P>() + power(P::fraction_bits() - 1),
    }
}

// The pattern of 1.
pub fn one<P: Pattern>() -> u64
    ensures { result ≡ bias P.format * 2 ^ P.format.fraction }
{
    field_sizes::one(P::fraction_bits(), P::exponent_bits())
}

pub fn field<P: Pattern>(x: u64) -> u64
    ensures { (result ≡ exponent_field P.format x) × (result ≤ top_field P.format) }
{
    field_sizes::field(P::fraction_bits(), P::exponent_bits(), x)
}

// x without its sign.
pub fn rest<P: Pattern>(x: u64) -> u64
    ensures { result ≡ unsigned P.format x }
{
    field_sizes::rest(P::fraction_bits(), P::exponent_bits(), x)
}

// The zero of x's sign.
pub fn signed_zero<P: Pattern>(x: u64) -> u64
    ensures { result ≡ x - x % sign_bit P.format }
{
    field_sizes::signed_zero(P::fraction_bits(), P::exponent_bits(), x)
}

// x with the top fraction bit set.
pub fn quiet<P: Pattern>(x: u64) -> u64
    requires { x < 2 * sign_bit P.format }
    ensures { (result ≡ quieted P.format x) × (result < 2 * sign_bit P.format) }
{
    field_sizes::quiet(P::fraction_bits(), P::exponent_bits(), x)
}

// A NaN quieted, or an infinity unchanged.
pub fn not_finite<P: Pattern>(x: u64) -> u64
    requires { (x < 2 * sign_bit P.format) × (exponent_field P.format x ≡ top_field P.format) }
    ensures { (result ≡ propagated P.format x) × (result < 2 * sign_bit P.format) }
{
    field_sizes::not_finite(P::fraction_bits(), P::exponent_bits(), x)
}

// A whole number by which patterns compare as their numbers do, the two zeros equal.
pub fn rank<P: Pattern>(x: u64) -> u64
    requires { x < 2 * sign_bit P.format }
    ensures { (result ≡ rank P.format x) × (result < 2 * sign_bit P.format) }
{
    field_sizes::rank(P::fraction_bits(), P::exponent_bits(), x)
}

// How far the leading one of m stands below the place of a normal number's: the one way that a number comes to its leading one.
pub fn leading_shift(fraction: u64, m: u64) -> u64
    requires { (fraction < 62) × (0 < m) × (m < 2 * 2 ^ fraction) }
    ensures { (result ≤ fraction) × (2 ^ fraction ≤ m * 2 ^ result) × (m * 2 ^ result < 2 * 2 ^ fraction) × (result ≡ leading_shift fraction m) }
{
    u64::leading_zeros(m) as u64 - (63 - fraction)
}

// The same of a format's numbers.
pub fn normal_shift<P: Pattern>(m: u64) -> u64
    requires { (0 < m) × (m < 2 * 2 ^ P.format.fraction) }
    ensures { (result ≤ P.format.fraction) × (2 ^ P.format.fraction ≤ m * 2 ^ result) × (m * 2 ^ result < 2 * 2 ^ P.format.fraction) × (result ≡ leading_shift P.format.fraction m) }
{
    leading_shift(P::fraction_bits(), m)
}

// The pattern, without a sign, of m * 2^scale units.
pub fn encoded<P: Pattern>(m: u64, scale: u64) -> u64
    requires { (m < 2 * 2 ^ P.format.fraction) × (scale < top_field P.format) }
    ensures { (result ≡ encode P.format.fraction (m * 2 ^ scale)) × (result < sign_bit P.format) }
{
    field_sizes::encoded(P::fraction_bits(), P::exponent_bits(), m, scale)
}

// m / 2^d rounded, halves to even. Half of the unit is added before the shift, less one where the quotient is even, so that a tie
// stays there.
pub fn shifted(fraction: u64, m: u64, d: u64) -> u64
    requires { (fraction < 62) × (m < 2 * 2 ^ fraction) × (1 ≤ d) }
    ensures { (result ≡ parts HalfEven false m (2 ^ d)) × (result ≤ 2 ^ fraction) }
{
    if d > fraction + 1 {
        return 0;
    }
    let unit = power(d);
    let odd = m / unit % 2;
    (m + (unit / 2 - 1 + odd)) / unit
}
