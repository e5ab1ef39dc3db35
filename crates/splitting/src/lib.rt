// Splitting a number into its whole part and its fraction: modf, generic over the width. Nothing here refuses.
//
// Every size is worked out from the two that a `Pattern` has, so that the compiler folds them. A number from one on that has a fraction is
// the common case, and is tested for first.
#![tactic(auto)]

ghost use Rattle.std.specs.Prelude.{◌≡◌, cond, refl, ◌+◌, ◌*◌, ◌<◌, ◌≤◌};
ghost use Rattle.std.specs.Float.{Float, NotNan, NotNanBits};
ghost use Rattle.std.specs.Float.Ieee.{add, of_bits, to_bits};
ghost use Rattle.std.specs.Float.Ieee as Ieee;
ghost use Rattle.float_format.specs.Format.{sign_bit, exponent_field, is_nan, quieted};
ghost use Rattle.float_format.specs.Number.{bias};
ghost use Rattle.float_format.specs.Width.{Finite};
ghost use Rattle.splitting.specs.Splitting.{modf_whole, modf_fraction};
ghost use Rattle.splitting.specs.Answer.{whole_of, fraction_of, is_nan_of, Holds};
ghost use Rattle.float_format.proofs.Floats.{format_of};

use float_format::width::{
    bias_of, field, normal_shift, power, quiet, signed_zero, top_field, unit,
};
use float_format::{Pattern, Wide};
use std::ops::Add;

// A pattern that a float of the language has: u64 for f64, u32 for f32.
pub trait FloatPattern: Wide {
    type Float: Copy + Add<Output = Self::Float>;

    // The float's format in the language's own terms, and its value.
    ghost ieee: { Ieee.Format };

    ghost value: { Self.Float → Float };

    // The float of a pattern that is no NaN's: no float carries a NaN's bits.
    fn to_float(self) -> Self::Float
        requires { NotNanBits ieee (Self.bits self) }
        ensures { value result ≡ of_bits ieee (Self.bits self) };

    fn of_float(float: Self::Float) -> Self
        requires { NotNan (value float) }
        ensures { Self.bits result ≡ to_bits ieee (value float) };

    ghost same_format: { format_of ieee ≡ Self.format };

    ghost addable: { (x y : Self.Float) → Self.Float.can_add x y };

    ghost adds: { (x y z : Self.Float) → Self.Float.add_gives x y z → value z ≡ add ieee (value x) (value y) };
}

impl FloatPattern for u64 {
    type Float = f64;

    ghost ieee = { Ieee.binary64 };

    ghost value = { λ x. x };

    ghost same_format = { refl };

    ghost addable = { λ x y. tt };

    ghost adds = { λ x y z e. e };

    fn to_float(self) -> f64 {
        f64::from_bits(self)
    }

    fn of_float(float: f64) -> u64 {
        f64::to_bits(float)
    }
}

impl FloatPattern for u32 {
    type Float = f32;

    ghost ieee = { Ieee.binary32 };

    ghost value = { λ x. x };

    ghost same_format = { refl };

    ghost addable = { λ x y. tt };

    ghost adds = { λ x y z e. e };

    fn to_float(self) -> f32 {
        f32::from_bits(self)
    }

    fn of_float(float: f32) -> u32 {
        f32::to_bits(float)
    }
}

// ---- what modf answers

// The two parts as patterns.
#[derive(Clone, Copy)]
pub struct Patterns<P> {
    pub whole: P,
    pub fraction: P,
}

// The two parts as floats. Neither is ever a NaN.
#[derive(Clone, Copy)]
pub struct Parts<F> {
    pub whole: F,
    pub fraction: F,
}

// A NaN's quieted pattern, which stands for both parts.
#[derive(Clone, Copy)]
pub struct Nan<P> {
    pub pattern: P,
}

// ---- the parts as words

// From one on, below where every number is whole: the low bits of x are its fraction, counted in units of 2^(e - 1). The mask for them is
// the fraction field's, moved down by the exponent: the same difference that `split` tests. Their leading one is brought to a normal
// number's place, and as many are taken from the field, x's sign still above it. The result is normal: the field is the bias at least, and
// the fraction has fewer bits than that.
fn both<P: Wide>(x: u64, e: u64) -> Patterns<u64>
    requires { Finite P.format x e × (bias P.format ≤ e) × (e < bias P.format + P.format.fraction) }
    ensures { (result.whole ≡ modf_whole P.format x) × (result.fraction ≡ modf_fraction P.format x) }
{
    let low = x & ((unit::<P>() - 1) >> (e - bias_of::<P>()));
    if low == 0 {
        return Patterns {
            whole: x,
            fraction: signed_zero::<P>(x),
        };
    }
    let shift = normal_shift::<P>(low);
    let scale = (x >> P::fraction_bits()) * unit::<P>();
    Patterns {
        whole: x - low,
        fraction: scale - (shift + 1) * unit::<P>() + low * power(shift),
    }
}

// Everything else: one of the parts is x itself, and the other a zero, unless x is a NaN.
fn one_part<P: Wide>(x: u64, e: u64) -> Patterns<u64>
    requires { (x < 2 * sign_bit P.format) × (e ≡ exponent_field P.format x) × (bias P.format ≤ e → bias P.format + P.format.fraction ≤ e) }
    ensures { (result.whole ≡ modf_whole P.format x) × (result.fraction ≡ modf_fraction P.format x) }
{
    if e < bias_of::<P>() {
        return Patterns {
            whole: signed_zero::<P>(x),
            fraction: x,
        };
    }
    if e == top_field::<P>() {
        if x % unit::<P>() != 0 {
            let nan = quiet::<P>(x);
            return Patterns {
                whole: nan,
                fraction: nan,
            };
        }
    }
    let zero = signed_zero::<P>(x);
    Patterns {
        whole: x,
        fraction: zero,
    }
}

fn split<P: Wide>(x: u64) -> Patterns<u64>
    requires { x < 2 * sign_bit P.format }
    ensures { (result.whole ≡ modf_whole P.format x) × (result.fraction ≡ modf_fraction P.format x) × (result.whole < 2 * sign_bit P.format) × (result.fraction < 2 * sign_bit P.format) }
{
    let e = field::<P>(x);
    // Below one the difference wraps to a number past all of these, so that one test asks for both ends.
    let above = e.wrapping_sub(bias_of::<P>());
    if above < P::fraction_bits() {
        return both::<P>(x, e);
    }
    one_part::<P>(x, e)
}

// ---- modf

// The whole part and the fraction of x as patterns, each with x's sign.
//
// Special cases are: an infinity gives itself and a zero, NaN two quieted copies.
pub fn modf_patterns<P: Wide>(x: P) -> Patterns<P>
    ensures { (P.bits result.whole ≡ modf_whole P.format (P.bits x)) × (P.bits result.fraction ≡ modf_fraction P.format (P.bits x)) × (P.bits x < 2 * sign_bit P.format) }
{
    let patterns = split::<P>(x.to_word());
    Patterns {
        whole: P::from_word(patterns.whole),
        fraction: P::from_word(patterns.fraction),
    }
}

// The whole part and the fraction of x as floats, each with x's sign.
//
// Special cases are: an infinity gives itself and a zero, NaN its quieted pattern.
pub fn modf<P: FloatPattern>(x: P) -> Result<Parts<P::Float>, Nan<P>>
    ensures { (whole_of P.ieee P.value P.bits result ≡ modf_whole P.format (P.bits x)) × (fraction_of P.ieee P.value P.bits result ≡ modf_fraction P.format (P.bits x)) × (is_nan_of result ≡ is_nan P.format (P.bits x)) × Holds P.ieee P.value result (modf_whole P.format (P.bits x)) (modf_fraction P.format (P.bits x)) × (P.bits x < 2 * sign_bit P.format) }
{
    let patterns = modf_patterns(x);
    if x.is_nan() {
        return Err(Nan {
            pattern: patterns.whole,
        });
    }
    Ok(Parts {
        whole: patterns.whole.to_float(),
        fraction: patterns.fraction.to_float(),
    })
}

// The sum of the two parts, by the language's own addition. A host that is set to flush subnormals to zero does so here too.
pub fn joined<P: FloatPattern>(parts: Parts<P::Float>) -> P::Float
    ensures { P.value result ≡ add P.ieee (P.value parts.whole) (P.value parts.fraction) }
{
    parts.whole + parts.fraction
}

// modf's two parts, added again: x's own bits, and NaN quieted. A host that is set to flush subnormals to zero gives a zero for them.
pub fn rejoin<P: FloatPattern>(x: P) -> P
    ensures { P.bits result ≡ cond (is_nan P.format (P.bits x)) (quieted P.format (P.bits x)) (P.bits x) }
{
    match modf(x) {
        Ok(parts) => P::of_float(joined::<P>(parts)),
        Err(nan) => nan.pattern,
    }
}
