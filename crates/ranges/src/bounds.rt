// The range rules: a step's range from its operands' ranges (document 01, "Recipe text"; steps 24 and 40 to 42: document 02, W-204 and W-208), and
// refusals 20 to 22 as stated for the sheet.
ghost use Rattle.std.specs.Prelude.{◌≡◌, ◌||◌, cond};
ghost use Rattle.float_format.specs.Format.{binary64};
ghost use Rattle.semantics.specs.Range.{doubles, wholes, infinite_end, holds_zero, greatest, is_negative, is_positive, fraction_low, fraction_high, absolute_range, fmod_low, fmod_high, fmod_range, ldexp_range, remainder_range, sum_low, sum_high, difference_low, difference_high, product_low, product_high, worked_range, step_range};
ghost use Rattle.semantics.specs.Range as range;
ghost use Rattle.values.specs.Seen.{outcome_of};
ghost use Rattle.ranges.specs.Seen.{seen_range, bound_of};
ghost use Rattle.ranges.specs.Carried.{between, carried};

use super::{Ends, Range, WholeRange};
use float_format::Pattern;
use integer_arithmetic::{difference, product, sum};
use ordering::{fmax, fmin};
use recipe::Step;
use rounding::{ceil, floor, lround, nearbyint, round, trunc};
use steps::order::double_above;
use twos_complement::signed;
use values::step::{
    difference_of, double_of, is_infinite, ldexp_of, lround_of, real_of, sum_of, whole_of,
};
use values::{Refusal, Value};

// The range between two ends, refused where either is.
fn between(low: Result<Value, Refusal>, high: Result<Value, Refusal>) -> Result<Range, Refusal>
    ensures { bound_of result ≡ between (outcome_of low) (outcome_of high) }
{
    Ok(Range::of(low?, high?))
}

fn doubles_of(low: u64, high: u64) -> Result<Range, Refusal>
    ensures { bound_of result ≡ carried (range.ranged (doubles low high)) }
{
    between(real_of(low), real_of(high))
}

// ---- tests of an end

fn is_negative(x: u64) -> bool
    ensures { result ≡ is_negative x }
{
    double_above(0, x)
}

fn is_positive(x: u64) -> bool
    ensures { result ≡ is_positive x }
{
    double_above(x, 0)
}

impl Ends {
    pub fn has_infinite_end(self) -> bool
        ensures { result ≡ infinite_end (doubles self.low self.high) }
    {
        is_infinite(self.low) | is_infinite(self.high)
    }

    pub fn holds_zero(self) -> bool
        ensures { result ≡ holds_zero (doubles self.low self.high) }
    {
        !is_positive(self.low) && !is_negative(self.high)
    }

    // The largest magnitude in a range.
    fn greatest(self) -> u64
        ensures { result ≡ greatest (doubles self.low self.high) }
    {
        fmax(self.low.fabs(), self.high.fabs())
    }
}

// ---- rules by cases

// 15: a fraction lies strictly between -1 and 1, so that an end past them is the number next to them.
fn fraction_low(x: u64) -> u64
    ensures { result ≡ fraction_low x }
{
    if is_negative(x) {
        if double_above(x, 0xbff0_0000_0000_0000) {
            return x;
        }
        return 0xbfef_ffff_ffff_ffff;
    }
    0
}

fn fraction_high(x: u64) -> u64
    ensures { result ≡ fraction_high x }
{
    if is_positive(x) {
        if double_above(0x3ff0_0000_0000_0000, x) {
            return x;
        }
        return 0x3fef_ffff_ffff_ffff;
    }
    0
}

// 16: a range across zero starts at +0.
fn absolute_range(a: Ends) -> Result<Range, Refusal>
    ensures { bound_of result ≡ carried (range.ranged (absolute_range (doubles a.low a.high))) }
{
    if is_negative(a.low) {
        if is_positive(a.high) {
            return doubles_of(0, a.greatest());
        }
        return doubles_of(a.high.fabs(), a.low.fabs());
    }
    doubles_of(a.low.fabs(), a.high.fabs())
}

// 22, 24: whether a dividend in a has no remainder by a divisor in b.
fn no_remainder(a: Ends, b: Ends) -> bool
    ensures { result ≡ (infinite_end (doubles a.low a.high) || holds_zero (doubles b.low b.high)) }
{
    a.has_infinite_end() | b.holds_zero()
}

// 22: m is the greatest magnitude of the divisor.
fn fmod_low(x: u64, m: u64) -> u64
    ensures { result ≡ fmod_low x m }
{
    if is_negative(x) {
        return fmin(x.fabs(), m).negate();
    }
    0
}

fn fmod_high(x: u64, m: u64) -> u64
    ensures { result ≡ fmod_high x m }
{
    if is_positive(x) {
        return fmin(x, m);
    }
    0
}

fn fmod_range(a: Ends, b: Ends) -> Result<Range, Refusal>
    ensures { bound_of result ≡ carried (fmod_range (doubles a.low a.high) (doubles b.low b.high)) }
{
    if no_remainder(a, b) {
        return Err(Refusal::Undefined);
    }
    let m = b.greatest();
    doubles_of(fmod_low(a.low, m), fmod_high(a.high, m))
}

// 23: away from zero by the greatest power, towards it by the least.
pub fn low_power(low: u64, n: WholeRange) -> i64
    ensures { result ≡ cond (is_negative low) n.high n.low }
{
    if is_negative(low) {
        return n.high;
    }
    n.low
}

pub fn high_power(high: u64, n: WholeRange) -> i64
    ensures { result ≡ cond (is_positive high) n.high n.low }
{
    if is_positive(high) {
        return n.high;
    }
    n.low
}

fn ldexp_range(a: Ends, n: WholeRange) -> Result<Range, Refusal>
    ensures { bound_of result ≡ carried (ldexp_range (doubles a.low a.high) (wholes n.low n.high)) }
{
    if a.has_infinite_end() {
        return Err(Refusal::Overflow);
    }
    between(
        ldexp_of(a.low, low_power(a.low, n)),
        ldexp_of(a.high, high_power(a.high, n)),
    )
}

// 24: no further from zero than the dividend, nor than the divisor.
fn remainder_range(a: Ends, b: Ends) -> Result<Range, Refusal>
    ensures { bound_of result ≡ carried (remainder_range (doubles a.low a.high) (doubles b.low b.high)) }
{
    if no_remainder(a, b) {
        return Err(Refusal::Undefined);
    }
    let m = fmin(a.greatest(), b.greatest());
    doubles_of(m.negate(), m)
}

// 40 to 42: the answer's ends, of operands in a and in b.
pub fn sum_ends(a: Ends, b: Ends) -> Ends
    ensures { (result.low ≡ sum_low (doubles a.low a.high) (doubles b.low b.high)) × (result.high ≡ sum_high (doubles a.low a.high) (doubles b.low b.high)) }
{
    Ends {
        low: sum(a.low, b.low),
        high: sum(a.high, b.high),
    }
}

pub fn difference_ends(a: Ends, b: Ends) -> Ends
    ensures { (result.low ≡ difference_low (doubles a.low a.high) (doubles b.low b.high)) × (result.high ≡ difference_high (doubles a.low a.high) (doubles b.low b.high)) }
{
    Ends {
        low: difference(a.low, b.high),
        high: difference(a.high, b.low),
    }
}

// Which of the four end products are the ends depends on the signs. Where one is infinite, the least or the greatest is.
pub fn product_ends(a: Ends, b: Ends) -> Ends
    ensures { (result.low ≡ product_low (doubles a.low a.high) (doubles b.low b.high)) × (result.high ≡ product_high (doubles a.low a.high) (doubles b.low b.high)) }
{
    let x = product(a.low, b.low);
    let y = product(a.low, b.high);
    let z = product(a.high, b.low);
    let w = product(a.high, b.high);
    Ends {
        low: fmin(fmin(x, y), fmin(z, w)),
        high: fmax(fmax(x, y), fmax(z, w)),
    }
}

// 40 to 42: the range between the answer's ends, where no end of an operand and neither of them is infinite.
fn worked_range(a: Ends, b: Ends, answer: Ends) -> Result<Range, Refusal>
    ensures { bound_of result ≡ carried (worked_range (doubles a.low a.high) (doubles b.low b.high) (infinite_end (doubles answer.low answer.high)) answer.low answer.high) }
{
    if a.has_infinite_end() | b.has_infinite_end() {
        return Err(Refusal::Undefined);
    }
    if answer.has_infinite_end() {
        return Err(Refusal::Overflow);
    }
    doubles_of(answer.low, answer.high)
}

// The range of the step t, a and b being its operands' ranges.
#[tactic(auto, unfolding(semantics::specs::Range::range_rule, semantics::specs::Range::step_range))]
pub fn step_range(t: Step, a: Range, b: Range) -> Result<Range, Refusal>
    ensures { bound_of result ≡ carried (step_range t (seen_range a) (seen_range b)) }
{
    let x = a.ends();
    let y = b.ends();
    let m = a.wholes();
    let n = b.wholes();
    let p = t.p;
    let q = t.q;
    let opcode = t.opcode;
    match opcode {
        0x01 => doubles_of(p, q),
        0x02 => between(whole_of(signed(p)), whole_of(signed(q))),
        0x03 => doubles_of(p, p),
        0x04 => between(whole_of(signed(p)), whole_of(signed(p))),
        0x10 => doubles_of(floor(x.low), floor(x.high)),
        0x11 => doubles_of(ceil(x.low), ceil(x.high)),
        0x12 => doubles_of(trunc(x.low), trunc(x.high)),
        0x13 => doubles_of(round(x.low), round(x.high)),
        0x14 => doubles_of(nearbyint(x.low), nearbyint(x.high)),
        0x15 => doubles_of(fraction_low(x.low), fraction_high(x.high)),
        0x16 => absolute_range(x),
        0x17 => doubles_of(x.high.negate(), x.low.negate()),
        0x18 => between(lround_of(x.low), lround_of(x.high)),
        0x20 => doubles_of(fmin(x.low, y.low), fmin(x.high, y.high)),
        0x21 => doubles_of(fmax(x.low, y.low), fmax(x.high, y.high)),
        0x22 => fmod_range(x, y),
        0x23 => ldexp_range(x, n),
        0x24 => remainder_range(x, y),
        0x30 => between(sum_of(m.low, n.low), sum_of(m.high, n.high)),
        0x31 => between(difference_of(m.low, n.high), difference_of(m.high, n.low)),
        0x32 => between(double_of(m.low), double_of(m.high)),
        0x40 => worked_range(x, y, sum_ends(x, y)),
        0x41 => worked_range(x, y, difference_ends(x, y)),
        0x42 => worked_range(x, y, product_ends(x, y)),
        _ => between(whole_of(0), whole_of(0)),
    }
}
