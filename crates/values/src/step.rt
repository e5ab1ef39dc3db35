// The step rules: a step's value from its operands' values (document 01, "Recipe text"; steps 24 and 40 to 42: document 02, W-204 and W-208), and
// refusals 20 to 22.
ghost use Rattle.std.specs.Prelude.{◌≡◌, cond, ◌^◌, ◌≤◌, eqb, leb, nat_abs, ◌+ℤ◌, ◌-ℤ◌};
ghost use Rattle.float_format.specs.Format.{binary64, is_infinite};
ghost use Rattle.float_format.specs.Refusals.{refusal_number};
ghost use Rattle.float_format.specs.Rounding.{lround_refusal, lround_value};
ghost use Rattle.splitting.specs.Splitting.{modf_fraction};
ghost use Rattle.remainder.specs.Remainder.{fmod, fmod_refusal};
ghost use Rattle.nearest_remainder.specs.Nearest.{remainder};
ghost use Rattle.scaling.specs.Scaling.{ldexp, ldexp_refusal};
ghost use Rattle.arithmetic.specs.Arithmetic.{sum, difference, product};
ghost use Rattle.semantics.specs.Value.{whole, done, refused, fits_word, of_whole, worked, step_value};
ghost use Rattle.values.specs.Carried.{real, carried};
ghost use Rattle.values.specs.Seen.{seen, outcome_of};

use super::{Number, Refusal, Value};
use float_format::width::{encoded, infinity_of, rest, sign_bit};
use float_format::{Pattern, Word};
use recipe::Step;
use rounding::{ceil, floor, lround, nearbyint, round, trunc};
use twos_complement::signed;

// ---- what a step comes to

pub fn real_of(x: u64) -> Result<Value, Refusal>
    ensures { outcome_of result ≡ done (real x) }
{
    Ok(Value::real(x))
}

pub fn whole_of(z: i64) -> Result<Value, Refusal>
    ensures { outcome_of result ≡ done (whole z) }
{
    Ok(Value::Whole(z))
}

// 15: the fraction of modf's pair, which is a float already.
fn fraction_of(x: u64) -> Result<Value, Refusal>
    ensures { outcome_of result ≡ done (real (modf_fraction binary64 x)) }
{
    match splitting::modf(x) {
        Ok(parts) => Ok(Value::Double(Number::of_float(parts.fraction))),
        Err(nan) => real_of(nan.pattern),
    }
}

// 18
pub fn lround_of(x: u64) -> Result<Value, Refusal>
    ensures { outcome_of result ≡ cond (eqb (lround_refusal binary64 x) 0) (done (whole (lround_value binary64 x))) (refused 21) }
{
    match lround(x) {
        Ok(z) => whole_of(z),
        Err(_) => Err(Refusal::Overflow),
    }
}

// 22, 24: a remainder, where it is not refused.
fn divided(answer: Word<u64>) -> Result<Value, Refusal>
    ensures { outcome_of result ≡ cond (eqb (refusal_number answer.refusal) 0) (done (real answer.word)) (refused 20) }
{
    match answer.refusal {
        None => real_of(answer.word),
        Some(_) => Err(Refusal::Undefined),
    }
}

// 22
fn fmod_of(x: u64, y: u64) -> Result<Value, Refusal>
    ensures { outcome_of result ≡ cond (eqb (fmod_refusal binary64 x y) 0) (done (real (fmod binary64 x y))) (refused 20) }
{
    divided(remainder::fmod(x, y))
}

// 23
pub fn ldexp_of(x: u64, n: i64) -> Result<Value, Refusal>
    ensures { outcome_of result ≡ cond (eqb (ldexp_refusal binary64 x n) 0) (done (real (ldexp binary64 x n))) (refused 21) }
{
    let answer = scaling::ldexp(x, n);
    match answer.refusal {
        None => real_of(answer.word),
        Some(_) => Err(Refusal::Overflow),
    }
}

// 24
fn remainder_of(x: u64, y: u64) -> Result<Value, Refusal>
    ensures { outcome_of result ≡ cond (eqb (fmod_refusal binary64 x y) 0) (done (real (remainder binary64 x y))) (refused 20) }
{
    divided(nearest_remainder::remainder(x, y))
}

// 30
pub fn sum_of(m: i64, n: i64) -> Result<Value, Refusal>
    ensures { outcome_of result ≡ cond (fits_word (m +ℤ n)) (done (whole (m +ℤ n))) (refused 21) }
{
    let s = m.checked_add(n).ok_or(Refusal::Overflow)?;
    whole_of(s)
}

// 31
pub fn difference_of(m: i64, n: i64) -> Result<Value, Refusal>
    ensures { outcome_of result ≡ cond (fits_word (m -ℤ n)) (done (whole (m -ℤ n))) (refused 21) }
{
    let d = m.checked_sub(n).ok_or(Refusal::Overflow)?;
    whole_of(d)
}

// The pattern of a whole number of magnitude at most 2^53: one is 2^1074 units. 2^53 itself is the first with a digit too many.
fn pattern_of(z: i64, a: u64) -> u64
    requires { (a ≡ nat_abs z) × (a ≤ 2 ^ 53) }
    ensures { result ≡ of_whole z }
{
    let rest = if a < 0x20_0000_0000_0000 {
        encoded::<u64>(a, 1074)
    } else {
        0x4340_0000_0000_0000
    };
    if z >= 0 {
        return rest;
    }
    sign_bit::<u64>() + rest
}

// 32
pub fn double_of(z: i64) -> Result<Value, Refusal>
    ensures { outcome_of result ≡ cond (leb (nat_abs z) (2 ^ 53)) (done (real (of_whole z))) (refused 22) }
{
    let a = z.unsigned_abs();
    if a <= 0x20_0000_0000_0000 {
        return real_of(pattern_of(z, a));
    }
    Err(Refusal::Inexact)
}

// ---- doubles that are not infinite

pub fn is_infinite(x: u64) -> bool
    ensures { result ≡ is_infinite binary64 x }
{
    rest::<u64>(x) == infinity_of::<u64>()
}

// 40 to 42: the answer r of x and y, where none of the three is infinite.
fn worked(x: u64, y: u64, r: u64) -> Result<Value, Refusal>
    ensures { outcome_of result ≡ carried (worked x y r) }
{
    if is_infinite(x) | is_infinite(y) {
        return Err(Refusal::Undefined);
    }
    if is_infinite(r) {
        return Err(Refusal::Overflow);
    }
    real_of(r)
}

// 40
fn add_of(x: u64, y: u64) -> Result<Value, Refusal>
    ensures { outcome_of result ≡ carried (worked x y (sum binary64 x y)) }
{
    worked(x, y, integer_arithmetic::sum(x, y))
}

// 41
fn subtract_of(x: u64, y: u64) -> Result<Value, Refusal>
    ensures { outcome_of result ≡ carried (worked x y (difference binary64 x y)) }
{
    worked(x, y, integer_arithmetic::difference(x, y))
}

// 42
fn multiply_of(x: u64, y: u64) -> Result<Value, Refusal>
    ensures { outcome_of result ≡ carried (worked x y (product binary64 x y)) }
{
    worked(x, y, integer_arithmetic::product(x, y))
}

// The value of the step t, as a float carries it, w being the frame's word for it where it is an input, a and b its operands' values.
#[tactic(auto, unfolding(semantics::specs::Value::rule_of, semantics::specs::Value::step_value))]
pub fn step_value(t: Step, w: u64, a: Value, b: Value) -> Result<Value, Refusal>
    ensures { outcome_of result ≡ carried (step_value t w (seen a) (seen b)) }
{
    let x = a.double();
    let y = b.double();
    let m = a.whole();
    let n = b.whole();
    let p = t.p;
    let opcode = t.opcode;
    match opcode {
        0x01 => real_of(w),
        0x02 => whole_of(signed(w)),
        0x03 => real_of(p),
        0x04 => whole_of(signed(p)),
        0x10 => real_of(floor(x)),
        0x11 => real_of(ceil(x)),
        0x12 => real_of(trunc(x)),
        0x13 => real_of(round(x)),
        0x14 => real_of(nearbyint(x)),
        0x15 => fraction_of(x),
        0x16 => real_of(x.fabs()),
        0x17 => real_of(x.negate()),
        0x18 => lround_of(x),
        0x20 => real_of(ordering::fmin(x, y)),
        0x21 => real_of(ordering::fmax(x, y)),
        0x22 => fmod_of(x, y),
        0x23 => ldexp_of(x, n),
        0x24 => remainder_of(x, y),
        0x30 => sum_of(m, n),
        0x31 => difference_of(m, n),
        0x32 => double_of(m),
        0x40 => add_of(x, y),
        0x41 => subtract_of(x, y),
        0x42 => multiply_of(x, y),
        _ => whole_of(0),
    }
}
