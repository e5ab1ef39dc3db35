// A format's numbers from its two field sizes, as numbers: `width` has them of a type. Not entry points: each asks that a pattern fits a word.
// The parts of a word are taken by `&`: of a `%` by the sign's weight the compiler makes a comparison and a choice.
ghost use Rattle.std.specs.Prelude.{◌≡◌, ◌-◌, ◌*◌, ◌%◌, ◌^◌, ◌<◌, ◌≤◌};
ghost use Rattle.float_format.specs.Format.{sign_bit, top_field, infinity, unsigned, exponent_field, quieted, propagated};
ghost use Rattle.float_format.specs.Number.{encode, bias, rank};
ghost use Rattle.float_format.specs.Width.{format, InWord};

use crate::width::{leading_shift, power};

pub fn sign_bit(fraction: u64, exponent: u64) -> u64
    requires { InWord (format fraction exponent) }
    ensures { result ≡ sign_bit (format fraction exponent) }
{
    power(exponent + fraction)
}

pub fn top_field(fraction: u64, exponent: u64) -> u64
    requires { InWord (format fraction exponent) }
    ensures { result ≡ top_field (format fraction exponent) }
{
    power(exponent) - 1
}

pub fn bias_of(fraction: u64, exponent: u64) -> u64
    requires { InWord (format fraction exponent) }
    ensures { result ≡ bias (format fraction exponent) }
{
    power(exponent - 1) - 1
}

pub fn infinity_of(fraction: u64, exponent: u64) -> u64
    requires { InWord (format fraction exponent) }
    ensures { result ≡ infinity (format fraction exponent) }
{
    top_field(fraction, exponent) * power(fraction)
}

// The pattern of 1.
pub fn one(fraction: u64, exponent: u64) -> u64
    requires { InWord (format fraction exponent) }
    ensures { result ≡ bias (format fraction exponent) * 2 ^ fraction }
{
    bias_of(fraction, exponent) * power(fraction)
}

pub fn field(fraction: u64, exponent: u64, x: u64) -> u64
    requires { InWord (format fraction exponent) }
    ensures { (result ≡ exponent_field (format fraction exponent) x) × (result ≤ top_field (format fraction exponent)) }
{
    (x >> fraction) & top_field(fraction, exponent)
}

// x without its sign.
pub fn rest(fraction: u64, exponent: u64, x: u64) -> u64
    requires { InWord (format fraction exponent) }
    ensures { result ≡ unsigned (format fraction exponent) x }
{
    x & (sign_bit(fraction, exponent) - 1)
}

// The zero of x's sign.
pub fn signed_zero(fraction: u64, exponent: u64, x: u64) -> u64
    requires { InWord (format fraction exponent) }
    ensures { result ≡ x - x % sign_bit (format fraction exponent) }
{
    x - rest(fraction, exponent, x)
}

// x with the top fraction bit set.
pub fn quiet(fraction: u64, exponent: u64, x: u64) -> u64
    requires { InWord (format fraction exponent) × (x < 2 * sign_bit (format fraction exponent)) }
    ensures { (result ≡ quieted (format fraction exponent) x) × (result < 2 * sign_bit (format fraction exponent)) }
{
    x | power(fraction - 1)
}

// A NaN quieted, or an infinity unchanged.
pub fn not_finite(fraction: u64, exponent: u64, x: u64) -> u64
    requires { InWord (format fraction exponent) × (x < 2 * sign_bit (format fraction exponent)) × (exponent_field (format fraction exponent) x ≡ top_field (format fraction exponent)) }
    ensures { (result ≡ propagated (format fraction exponent) x) × (result < 2 * sign_bit (format fraction exponent)) }
{
    if x % power(fraction) == 0 {
        return x;
    }
    quiet(fraction, exponent, x)
}

// A whole number by which patterns compare as their numbers do, the two zeros equal.
pub fn rank(fraction: u64, exponent: u64, x: u64) -> u64
    requires { InWord (format fraction exponent) × (x < 2 * sign_bit (format fraction exponent)) }
    ensures { (result ≡ rank (format fraction exponent) x) × (result < 2 * sign_bit (format fraction exponent)) }
{
    let sign = sign_bit(fraction, exponent);
    // With a minus sign the number wraps below zero, and the sum brings it back.
    let number = if x < sign { x } else { sign.wrapping_sub(x) };
    sign.wrapping_add(number)
}

// The pattern, without a sign, of m * 2^scale units.
pub fn encoded(fraction: u64, exponent: u64, m: u64, scale: u64) -> u64
    requires { InWord (format fraction exponent) × (m < 2 * 2 ^ fraction) × (scale < top_field (format fraction exponent)) }
    ensures { (result ≡ encode fraction (m * 2 ^ scale)) × (result < sign_bit (format fraction exponent)) }
{
    if m == 0 {
        return 0;
    }
    let k = leading_shift(fraction, m);
    let shift = if k < scale { k } else { scale };
    (scale - shift) * power(fraction) + m * power(shift)
}
