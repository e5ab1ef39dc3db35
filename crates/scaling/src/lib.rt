// Powers of two taken out of a number and multiplied in: frexp and ldexp.
//
// Both go by the significand: a normal number has its leading one in place, and a subnormal one is brought there by one shift. The pieces
// are small, so that the compiler puts each width's function together in one, in which its sizes are numbers.
#![tactic(auto)]

ghost use Rattle.std.specs.Prelude.{◌≡◌, ◌+◌, ◌-◌, ◌*◌, ◌^◌, ◌<◌, pos, ◌-ℤ◌};
ghost use Rattle.float_format.specs.Format.{sign_bit, unsigned};
ghost use Rattle.float_format.specs.Number.{bias};
ghost use Rattle.float_format.specs.Width.{Finite};
ghost use Rattle.float_format.specs.Refusals.{refusal_number};
ghost use Rattle.scaling.specs.Scaling.{frexp_fraction, frexp_exponent, ldexp, ldexp_refusal};
ghost use Rattle.scaling.specs.Position.{Position};

use float_format::width::{
    bias_of, field, infinity_of, normal_shift, not_finite, power, rest, shifted, signed_zero,
    top_field, unit,
};
use float_format::{Pattern, Refusal, Word};
use twos_complement::word;

// What frexp answers of x: a fraction, as a pattern, and a power of two. Their product is x.
#[derive(Clone, Copy)]
pub struct Decomposed<P> {
    pub fraction: P,
    pub exponent: i64,
}

// ---- frexp

// The power of two that frexp answers for a number of units of so many binary digits.
fn power_of<P: Pattern>(digits: u64) -> i64
    requires { digits < 2 ^ 63 }
    ensures { result ≡ pos digits -ℤ pos (bias P.format + P.format.fraction - 1) }
{
    digits as i64 - (bias_of::<P>() + P::fraction_bits() - 1) as i64
}

// A zero, or a subnormal, whose leading one goes to the place of a normal number's.
fn frexp_subnormal<P: Pattern>(x: P) -> Decomposed<P>
    requires { unsigned P.format (P.bits x) < 2 ^ P.format.fraction }
    ensures { (P.bits result.fraction ≡ frexp_fraction P.format (P.bits x)) × (result.exponent ≡ frexp_exponent P.format (P.bits x)) }
{
    let w = x.to_word();
    let m = rest::<P>(w);
    if m == 0 {
        return Decomposed {
            fraction: x,
            exponent: 0,
        };
    }
    let k = normal_shift::<P>(m);
    let below = bias_of::<P>() - 2;
    let half = below * unit::<P>() + m * power(k);
    Decomposed {
        fraction: P::from_word(signed_zero::<P>(w) + half),
        exponent: power_of::<P>(P::fraction_bits() + 1 - k),
    }
}

// The fraction, of magnitude at least 0.5 and below 1 and with x's sign, and the exponent whose power of two times the fraction is x.
//
// Subnormal numbers stand below the smallest normal one, normal ones below infinity. A normal number keeps its sign and its fraction, and
// its field becomes that of one half.
//
// Special cases are: zeros and infinities unchanged, NaN quieted. Their exponent is 0.
pub fn frexp<P: Pattern>(x: P) -> Decomposed<P>
    ensures { (P.bits result.fraction ≡ frexp_fraction P.format (P.bits x)) × (result.exponent ≡ frexp_exponent P.format (P.bits x)) }
{
    let w = x.to_word();
    let a = rest::<P>(w);
    let unit = unit::<P>();
    if a < unit {
        return frexp_subnormal(x);
    }
    if a < infinity_of::<P>() {
        let half = bias_of::<P>() - 1;
        return Decomposed {
            fraction: P::from_word(signed_zero::<P>(w) + (w % unit + half * unit)),
            exponent: power_of::<P>(P::fraction_bits() + (a >> P::fraction_bits())),
        };
    }
    Decomposed {
        fraction: P::from_word(not_finite::<P>(w)),
        exponent: 0,
    }
}

// ---- ldexp

// Where x times 2^n stands: x's significand with its leading one in place, and the exponent field that goes with it, were there no
// end to the fields: a number of 64 bits in two's complement.
#[derive(Drop)]
struct Place {
    significand: u64,
    field: u64,
}

// Of a number that is not zero, with the exponent field e.
fn place_of<P: Pattern>(x: u64, e: u64, n: i64) -> Place
    requires { Finite P.format x e × (0 < unsigned P.format x) }
    ensures { Position P.format x result.significand result.field n }
{
    let w = word(n);
    if e > 0 {
        let unit = unit::<P>();
        return Place {
            significand: unit + x % unit,
            field: w.wrapping_add(e),
        };
    }
    let a = rest::<P>(x);
    let k = normal_shift::<P>(a);
    Place {
        significand: a * power(k),
        field: w.wrapping_add(1).wrapping_sub(k),
    }
}

// The number there, with x's sign. A field from 1 to below the top one is a normal number's. From 0 down the significand moves down and
// is rounded, so far as anything is left of it. All other fields overflow, or are too small by far.
fn placed<P: Pattern>(x: u64, m: u64, t: u64, n: i64) -> Word<P>
    requires { (x < 2 * sign_bit P.format) × Position P.format x m t n }
    ensures { (P.bits result.word ≡ ldexp P.format x n) × (refusal_number result.refusal ≡ ldexp_refusal P.format x n) }
{
    let zero = signed_zero::<P>(x);
    if 0 < t && t < top_field::<P>() {
        return Word::of(P::from_word(zero + ((t - 1) * unit::<P>() + m)));
    }
    let d = u64::wrapping_sub(1, t);
    let fraction = P::fraction_bits();
    if d <= fraction + 1 {
        return Word::of(P::from_word(zero + shifted(fraction, m, d)));
    }
    if n < 0 {
        return Word::of(P::from_word(zero));
    }
    Word {
        word: P::from_word(zero + infinity_of::<P>()),
        refusal: Some(Refusal::OutOfRange),
    }
}

// x times 2^n rounded once, halves to even. What is too small is not refused: a zero result has x's sign.
//
// Special cases are: zeros and infinities unchanged, NaN quieted.
//
// Refuses 3 where x is finite and the rounded result is not: infinity of x's sign.
pub fn ldexp<P: Pattern>(x: P, n: i64) -> Word<P>
    ensures { (P.bits result.word ≡ ldexp P.format (P.bits x) n) × (refusal_number result.refusal ≡ ldexp_refusal P.format (P.bits x) n) }
{
    let w = x.to_word();
    let e = field::<P>(w);
    if e == 0 && rest::<P>(w) == 0 {
        return Word::of(x);
    }
    if e == top_field::<P>() {
        return Word::of(P::from_word(not_finite::<P>(w)));
    }
    let p = place_of::<P>(w, e, n);
    placed(w, p.significand, p.field, n)
}
