// Sums, differences and products in whole-number arithmetic (document 02, W-208): no operation on floats, so that no mode of the host has a
// say.
//
// Each brings the exact number to one word: a whole number of parts, which is exact, or odd and less than one part off. Rounding the word is
// then rounding the exact number (`packed`), once, subnormal answers and overflow included. The functions are generic over the width, and the
// compiler folds its sizes. They ask for `Wide`: a significand with nine digits more fits 62, and the sums of two exponents a word. A pattern
// that is not finite counts by its units, as in the definitions.
#![tactic(auto)]

ghost use Rattle.std.specs.Prelude.{◌≡◌, Bool, ◌⊎◌, ℕ, ◌+◌, ◌-◌, ◌*◌, ◌^◌, ◌<◌, ◌≤◌};
ghost use Rattle.std.specs.Float.Ieee.{unlike};
ghost use Rattle.float_format.specs.Format.{sign_bit, infinity, negative, unsigned, signed};
ghost use Rattle.float_format.specs.Number.{magnitude, one};
ghost use Rattle.float_format.specs.Rounding.{capped, rounded};
ghost use Rattle.arithmetic.specs.Arithmetic.{sum, difference, product};
ghost use Rattle.integer_arithmetic.specs.Stands.{Sticky, Stands, Scaled, Led, Aligned};

use float_format::Wide;
use float_format::width::{
    bias_of, infinity_of, leading_shift, normal_shift, power, rest, shifted, sign_bit, signed_zero,
    top_field, unit,
};

// digits * 2^scale
#[derive(Drop)]
struct Significand {
    digits: u64,
    scale: u64,
}

// ---- rounding, once

// field * 2^fraction + digits, or infinity's pattern from there on.
fn cut<P: Wide>(field: u64, digits: u64) -> u64
    requires { digits ≤ 2 * 2 ^ P.format.fraction }
    ensures { (result ≡ capped P.format (field * 2 ^ P.format.fraction + digits)) × (result ≤ infinity P.format) }
{
    let top = infinity_of::<P>();
    if field >= top_field::<P>() {
        return top;
    }
    let a = field * unit::<P>() + digits;
    if a < top {
        return a;
    }
    top
}

// The pattern, without a sign, of w * 2^t / 2^b units. The leading one of w goes to bit 61, and all below the fraction is dropped: more,
// where the answer is subnormal.
fn packed<P: Wide>(w: u64, t: u64, b: u64) -> u64
    requires { (0 < w) × (w < 2 ^ 62) × (61 ≤ t) × (t < 2 ^ 62) × (b < 2 ^ 62) }
    ensures { ((s : Bool) (n u : ℕ) → Stands w t b n u → signed P.format s result ≡ rounded P.format s n u) × (result ≤ infinity P.format) }
{
    let k = leading_shift(61, w);
    let m = w * power(k);
    let drop = 61 - P::fraction_bits();
    let place = t + drop - k;
    if place < b {
        return shifted(61, m, drop + (b - place));
    }
    cut::<P>(place - b, shifted(61, m, drop))
}

// ---- sums

// m in parts of 2^d: how many, and where something is left, the odd one of the two next to it.
fn sticky(m: u64, d: u64) -> u64
    requires { m < 2 ^ 61 }
    ensures { Sticky m (2 ^ d) result }
{
    let unit = power(d.min(62));
    let q = m / unit;
    if m % unit == 0 {
        return q;
    }
    q + (1 - q % 2)
}

// The units of a pattern without its sign.
fn units<P: Wide>(a: u64) -> Significand
    requires { a < sign_bit P.format }
    ensures { Scaled P.format a result.digits result.scale }
{
    let unit = unit::<P>();
    let e = a / unit;
    if e == 0 {
        return Significand {
            digits: a,
            scale: 0,
        };
    }
    Significand {
        digits: unit + a % unit,
        scale: e - 1,
    }
}

// Two magnitudes in parts of one size, 2^scale / 2^(60 - fraction) units.
#[derive(Drop)]
struct Terms {
    large: u64,
    small: u64,
    scale: u64,
}

// Of x, which is the larger, and y.
fn aligned<P: Wide>(x: u64, y: u64) -> Terms
    requires { unsigned P.format y ≤ unsigned P.format x }
    ensures { Aligned P.format x y result.large result.small result.scale }
{
    let p = units::<P>(rest::<P>(x));
    let q = units::<P>(rest::<P>(y));
    let lift = power(60 - P::fraction_bits());
    Terms {
        large: p.digits * lift,
        small: sticky(q.digits * lift, p.scale - q.scale),
        scale: p.scale,
    }
}

// The magnitudes added where the signs, as zeros, are the same, else the smaller one taken away. As a value, so that the compiler makes no
// branch of it: signs follow no pattern.
fn combined(zero: u64, other: u64, large: u64, small: u64) -> u64
    requires { (small ≤ large) × (large < 2 ^ 61) }
    ensures { ((zero ≡ other) × (result ≡ large + small)) ⊎ ((zero ≡ other → ⊥) × (result ≡ large - small)) }
{
    if zero == other {
        return large + small;
    }
    large - small
}

// x is the larger.
fn ordered<P: Wide>(x: u64, y: u64) -> u64
    requires { (x < 2 * sign_bit P.format) × (y < 2 * sign_bit P.format) × (unsigned P.format y ≤ unsigned P.format x) }
    ensures { result ≡ sum P.format x y }
{
    let terms = aligned::<P>(x, y);
    let zero = signed_zero::<P>(x);
    let other = signed_zero::<P>(y);
    let total = combined(zero, other, terms.large, terms.small);
    if total == 0 {
        if zero == other {
            return zero;
        }
        return 0;
    }
    zero + packed::<P>(total, terms.scale + 61, 121 - P::fraction_bits())
}

// x where a is below b, else y.
fn picked(a: u64, b: u64, x: u64, y: u64) -> u64
    ensures { ((a < b) × (result ≡ x)) ⊎ ((b ≤ a) × (result ≡ y)) }
{
    if a < b {
        return x;
    }
    y
}

// Any two: the larger is taken first.
fn sum_of<P: Wide>(x: u64, y: u64) -> u64
    requires { (x < 2 * sign_bit P.format) × (y < 2 * sign_bit P.format) }
    ensures { result ≡ sum P.format x y }
{
    let a = rest::<P>(x);
    let b = rest::<P>(y);
    let first = picked(a, b, y, x);
    let second = picked(a, b, x, y);
    ordered::<P>(first, second)
}

// The sum, rounded once, halves to even. What is too large is the infinity of its sign. A zero sum is -0 where both terms are negative, else +0.
pub fn sum<P: Wide>(x: P, y: P) -> P
    ensures { P.bits result ≡ sum P.format (P.bits x) (P.bits y) }
{
    P::from_word(sum_of::<P>(x.to_word(), y.to_word()))
}

// The difference, rounded once, halves to even, as the sum of x and -y.
pub fn difference<P: Wide>(x: P, y: P) -> P
    ensures { P.bits result ≡ difference P.format (P.bits x) (P.bits y) }
{
    sum(x, y.negate())
}

// ---- products

// a * b in parts of 2^44: how many, and where something is left, the odd one of the two next to it.
fn high(a: u64, b: u64) -> u64
    requires { (a < 2 ^ 53) × (b < 2 ^ 53) }
    ensures { Sticky (a * b) (2 ^ 44) result × (result < 2 ^ 62) }
{
    let product = a as u128 * b as u128;
    let w = (product >> 44) as u64;
    if product % 0x1000_0000_0000 == 0 {
        return w;
    }
    w + (1 - w % 2)
}

// The significand of a pattern without its sign, its leading one in place: digits * 2^scale / 2^fraction units.
fn led<P: Wide>(a: u64) -> Significand
    requires { (0 < a) × (a < sign_bit P.format) }
    ensures { Led P.format a result.digits result.scale }
{
    if a < unit::<P>() {
        let k = normal_shift::<P>(a);
        return Significand {
            digits: a * power(k),
            scale: P::fraction_bits() - k,
        };
    }
    let p = units::<P>(a);
    Significand {
        digits: p.digits,
        scale: p.scale + P::fraction_bits(),
    }
}

// The zero whose sign is minus where those of x and y differ.
fn product_zero<P: Wide>(x: u64, y: u64) -> u64
    requires { (x < 2 * sign_bit P.format) × (y < 2 * sign_bit P.format) }
    ensures { result ≡ signed P.format (unlike (negative P.format x) (negative P.format y)) 0 }
{
    if signed_zero::<P>(x) == signed_zero::<P>(y) {
        return 0;
    }
    sign_bit::<P>()
}

// The product of two magnitudes that are not zero, as patterns without their signs.
fn multiplied<P: Wide>(a: u64, b: u64) -> u64
    requires { (0 < a) × (a < sign_bit P.format) × (0 < b) × (b < sign_bit P.format) }
    ensures { ((s : Bool) → signed P.format s result ≡ rounded P.format s (magnitude P.format.fraction a * magnitude P.format.fraction b) (one P.format)) × (result ≤ infinity P.format) }
{
    let p = led::<P>(a);
    let q = led::<P>(b);
    let lift = power(52 - P::fraction_bits());
    packed::<P>(
        high(p.digits * lift, q.digits * lift),
        p.scale + q.scale + 61,
        bias_of::<P>() + P::fraction_bits() + 120,
    )
}

fn product_of<P: Wide>(x: u64, y: u64) -> u64
    requires { (x < 2 * sign_bit P.format) × (y < 2 * sign_bit P.format) }
    ensures { result ≡ product P.format x y }
{
    let zero = product_zero::<P>(x, y);
    let a = rest::<P>(x);
    let b = rest::<P>(y);
    if a == 0 {
        return zero;
    }
    if b == 0 {
        return zero;
    }
    zero + multiplied::<P>(a, b)
}

// The product, rounded once, halves to even. What is too large is the infinity of its sign. A zero product is -0 where the signs differ.
pub fn product<P: Wide>(x: P, y: P) -> P
    ensures { P.bits result ≡ product P.format (P.bits x) (P.bits y) }
{
    P::from_word(product_of::<P>(x.to_word(), y.to_word()))
}
