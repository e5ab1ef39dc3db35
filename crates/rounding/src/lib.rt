// Rounding of patterns to whole numbers: floor, ceil, trunc, round, nearbyint, lround, of every format.
//
// In each of the five roundings, special cases are: zeros and infinities unchanged, NaN quieted. A zero result has x's sign. Only lround
// refuses.
//
// The work is done once, with the width open: the sizes are a `Pattern`'s, so that the compiler folds them. A rounding has one branch,
// for what is not finite. For the rest it works out two answers, one that is right from one on and one that is right below, and picks by
// the exponent field e: that costs less than a branch that is taken now and then.
#![tactic(auto)]

ghost use Rattle.std.specs.Prelude.{◌≡◌, ◌+◌, ◌-◌, ◌*◌, ◌/◌, ◌%◌, ◌^◌, ◌<◌, ◌≤◌};
ghost use Rattle.float_format.specs.Format.{binary32, sign_bit, top_field, exponent_field};
ghost use Rattle.float_format.specs.Number.{bias};
ghost use Rattle.float_format.specs.Rounding.{whole_part, integral, with_sign, lround_refusal, lround_value};
ghost use Rattle.float_format.specs.declared.Direction.{Direction};
ghost use Rattle.float_format.specs.declared.Direction.TheVariants.{Down, Up, TowardZero, HalfAway, HalfEven};
ghost use Rattle.rounding.specs.Answer.{refusal_of, value_of};
ghost use Rattle.float_format.specs.Width.{Finite};
ghost use Rattle.rounding.specs.Shape.{FromOne, BelowOne, fraction_shift, Mask};

use float_format::width::{
    bias_of, field, not_finite, one, power, sign_bit, signed_zero, top_field, unit,
};
use float_format::{Pattern, Refusal, Wide};

// ---- the roundings

// The greatest integer not above x.
pub fn floor<P: Pattern>(x: P) -> P
    ensures { P.bits result ≡ integral P.format Down (P.bits x) }
{
    P::from_word(rounded::<P, Downward>(x.to_word()))
}

// The least integer not below x.
pub fn ceil<P: Pattern>(x: P) -> P
    ensures { P.bits result ≡ integral P.format Up (P.bits x) }
{
    P::from_word(rounded::<P, Upward>(x.to_word()))
}

// The nearest integer not larger in magnitude than x.
pub fn trunc<P: Pattern>(x: P) -> P
    ensures { P.bits result ≡ integral P.format TowardZero (P.bits x) }
{
    P::from_word(rounded::<P, Inward>(x.to_word()))
}

// The integer nearest to x, halves away from zero.
pub fn round<P: Nearest>(x: P) -> P
    ensures { P.bits result ≡ integral P.format HalfAway (P.bits x) }
{
    x.nearest()
}

// The integer nearest to x, halves to even.
pub fn nearbyint<P: Pattern>(x: P) -> P
    ensures { P.bits result ≡ integral P.format HalfEven (P.bits x) }
{
    P::from_word(rounded::<P, HalvesToEven>(x.to_word()))
}

// round(x) as a signed number of 64 bits.
//
// Refuses 1 where x is NaN, and 3 where x is infinite or round(x) lies outside -2^63 to 2^63 - 1.
pub fn lround<P: Wide>(x: P) -> Result<i64, Refusal>
    ensures { (refusal_of result ≡ lround_refusal P.format (P.bits x)) × (value_of result ≡ lround_value P.format (P.bits x)) }
{
    let word = x.to_word();
    let e = field::<P>(word);
    if e < bias_of::<P>() + 63 {
        let n = whole_below::<P>(word, e);
        let negative = word >= sign_bit::<P>();
        return Ok(with_sign(negative, n));
    }
    integer_large::<P>(word, e)
}

// ---- a pattern's parts

// The weight of the lowest bit that stands for a whole number in a pattern with the exponent field e.
fn unit_at<P: Pattern>(e: u64) -> u64
    ensures { result ≡ 2 ^ fraction_shift P.format e }
{
    let whole = bias_of::<P>() + P::fraction_bits();
    if e < whole {
        power((whole - e) % 64)
    } else {
        power(0)
    }
}

// y without what is past the last multiple of the unit. (The compiler sees a power of two, and divides nothing.)
fn cut(y: u64, unit: u64) -> u64
    requires { 0 < unit }
    ensures { result ≡ y - y % unit }
{
    y - y % unit
}

// ---- every direction

// How one direction rounds a finite pattern x with the exponent field e.
trait Rounding {
    ghost direction: { Direction };

    // The answer from one on.
    fn from_one<P: Pattern>(x: u64, e: u64) -> u64
        requires { Finite P.format x e }
        ensures { FromOne P.format direction x e result };

    // The answer below one.
    fn below_one<P: Pattern>(x: u64, e: u64) -> u64
        requires { Finite P.format x e }
        ensures { BelowOne P.format direction x e result };
}

// x rounded to a whole number.
fn rounded<P: Pattern, R: Rounding>(x: u64) -> u64
    requires { x < 2 * sign_bit P.format }
    ensures { (result ≡ integral P.format R.direction x) × (result < 2 * sign_bit P.format) }
{
    let e = field::<P>(x);
    if e == top_field::<P>() {
        return not_finite::<P>(x);
    }
    let whole = R::from_one::<P>(x, e);
    let small = R::below_one::<P>(x, e);
    if e < bias_of::<P>() { small } else { whole }
}

// ---- floor

struct Downward;

impl Rounding for Downward {
    ghost direction = { Down };

    // A negative number goes on to the next whole one where it has any fraction: all of the unit but one is added before the cut.
    fn from_one<P: Pattern>(x: u64, e: u64) -> u64 {
        let unit = unit_at::<P>(e);
        let least = sign_bit::<P>() + one::<P>();
        let add = if x >= least { unit - 1 } else { 0 };
        cut(x + add, unit)
    }

    fn below_one<P: Pattern>(x: u64, e: u64) -> u64 {
        let sign = sign_bit::<P>();
        let minus_one = sign + one::<P>();
        let zero = signed_zero::<P>(x);
        if x > sign { minus_one } else { zero }
    }
}

// ---- ceil

struct Upward;

impl Rounding for Upward {
    ghost direction = { Up };

    fn from_one<P: Pattern>(x: u64, e: u64) -> u64 {
        let unit = unit_at::<P>(e);
        let add = if x < sign_bit::<P>() { unit - 1 } else { 0 };
        cut(x + add, unit)
    }

    fn below_one<P: Pattern>(x: u64, e: u64) -> u64 {
        let sign = sign_bit::<P>();
        let one = one::<P>();
        if x >= sign {
            return sign;
        }
        if x == 0 { 0 } else { one }
    }
}

// ---- trunc

struct Inward;

impl Rounding for Inward {
    ghost direction = { TowardZero };

    fn from_one<P: Pattern>(x: u64, e: u64) -> u64 {
        cut(x, unit_at::<P>(e))
    }

    fn below_one<P: Pattern>(x: u64, e: u64) -> u64 {
        signed_zero::<P>(x)
    }
}

// ---- round

struct HalvesAway;

impl Rounding for HalvesAway {
    ghost direction = { HalfAway };

    fn from_one<P: Pattern>(x: u64, e: u64) -> u64 {
        round_finite::<P>(x, e)
    }

    fn below_one<P: Pattern>(x: u64, e: u64) -> u64 {
        round_finite::<P>(x, e)
    }
}

// What stands below one in a pattern with the exponent field e, as ones: from 0.5 up to one that is one bit more than a fraction has.
// Below 0.5 it is some other number.
fn fraction_mask<P: Pattern>(e: u64) -> u64
    requires { e < top_field P.format }
    ensures { Mask P.format e result }
{
    let bias = bias_of::<P>();
    let ones = 2 * unit::<P>() - 1;
    if e < bias + P::fraction_bits() {
        ones >> ((e + 65 - bias % 64) % 64)
    } else {
        0
    }
}

// Half of the unit is added, and what stands below the unit is cut off: the fraction's bits from one half up to one, all but the sign
// below. One body for both sides of one: that is faster here than two answers of which one is picked.
fn round_finite<P: Pattern>(x: u64, e: u64) -> u64
    requires { Finite P.format x e }
    ensures { (result ≡ integral P.format HalfAway x) × (result < 2 * sign_bit P.format) }
{
    let mask = fraction_mask::<P>(e);
    let sum = x + (mask + 1) / 2;
    let low = mask & (unit::<P>() - 1);
    let all = sign_bit::<P>() - 1;
    let below = if e + 1 < bias_of::<P>() { all } else { low };
    sum & !below
}

// The same steps in words of 32 bits, which was a tenth faster on texture-like numbers. What is cut off is 23 bits from one half up to
// one, and all but the sign below.
fn round_single(x: u32, e: u32) -> u32
    requires { Finite binary32 x e }
    ensures { result ≡ integral binary32 HalfAway x }
{
    let mask = if e < 150 {
        0x00ff_ffff >> ((e + 2) % 32)
    } else {
        0
    };
    let moved = x + (mask + 1) / 2;
    let low = mask % 0x0080_0000;
    let cut = if e < 126 { 0x7fff_ffff } else { low };
    moved & !cut
}

// round of each width, by the steps that are fastest there: see docs/DECISIONS.md.
pub trait Nearest: Pattern {
    // The integer nearest to x, halves away from zero.
    fn nearest(self) -> Self
        ensures { Self.bits result ≡ integral Self.format HalfAway (Self.bits self) };
}

impl Nearest for u64 {
    fn nearest(self) -> u64 {
        rounded::<u64, HalvesAway>(self)
    }
}

impl Nearest for u32 {
    fn nearest(self) -> u32 {
        // the pattern without its sign, doubled: below twice infinity's it is finite
        let doubled = self << 1;
        if doubled < 0xff00_0000 {
            return round_single(self, doubled >> 24);
        }
        not_finite::<u32>(self as u64) as u32
    }
}

impl Nearest for u16 {
    // What is finite is told by the pattern and not by its field.
    fn nearest(self) -> u16 {
        let rest = self % 0x8000;
        if rest < 0x7c00 {
            let e = (rest >> 10) as u64;
            return round_finite::<u16>(self as u64, e) as u16;
        }
        not_finite::<u16>(self as u64) as u16
    }
}

// ---- nearbyint

struct HalvesToEven;

impl Rounding for HalvesToEven {
    ghost direction = { HalfEven };

    // Half a unit is added before the cut, less one where the whole part is even, so that a tie stays there. (unit - 1 + odd) / 2 is that
    // number, and 0 where the unit is 1.
    fn from_one<P: Pattern>(x: u64, e: u64) -> u64 {
        let unit = unit_at::<P>(e);
        let odd = x / unit % 2;
        cut(x + (unit - 1 + odd) / 2, unit)
    }

    // Above one half the answer is one.
    fn below_one<P: Pattern>(x: u64, e: u64) -> u64 {
        let zero = signed_zero::<P>(x);
        let one = one::<P>();
        let half = one - unit::<P>();
        let away = zero + one;
        if half < x - zero { away } else { zero }
    }
}

// ---- lround

// round(x), without its sign, of a number below 2^63. The significand, moved to the top of a word and back, leaves twice the
// magnitude, cut to a whole number; half of that, rounded up, is the answer.
fn whole_below<P: Pattern>(x: u64, e: u64) -> u64
    requires { Finite P.format x e × (e < bias P.format + 63) }
    ensures { (result ≡ whole_part P.format HalfAway x) × (result < 2 ^ 63) }
{
    let hidden = unit::<P>();
    let significand = (hidden + x % hidden) << (63 - P::fraction_bits());
    let bias = bias_of::<P>();
    let kept = if e + 1 < bias { 0 } else { significand };
    let twice = kept >> ((bias + 62 - e) % 64);
    (twice + 1) / 2
}

// A magnitude below 2^63 with its sign.
fn with_sign(negative: bool, n: u64) -> i64
    requires { n < 2 ^ 63 }
    ensures { result ≡ with_sign negative n }
{
    let z = n as i64;
    let minus = 0 - z;
    if negative { minus } else { z }
}

// From 2^63 on: only -2^63 itself is a number of 64 bits.
fn integer_large<P: Wide>(x: u64, e: u64) -> Result<i64, Refusal>
    requires { (x < 2 * sign_bit P.format) × (e ≡ exponent_field P.format x) × (bias P.format + 63 ≤ e) }
    ensures { (refusal_of result ≡ lround_refusal P.format x) × (value_of result ≡ lround_value P.format x) }
{
    if e == top_field::<P>() {
        if x % unit::<P>() == 0 {
            return Err(Refusal::OutOfRange);
        }
        return Err(Refusal::NotANumber);
    }
    let limit = one::<P>() + 63 * unit::<P>();
    if x == sign_bit::<P>() + limit {
        return Ok(i64::MIN);
    }
    Err(Refusal::OutOfRange)
}
