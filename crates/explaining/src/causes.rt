// Why a step is turned down: the first of its causes that is true, by the functions that the range rules themselves are made of.
ghost use Rattle.std.specs.Prelude.{◌≡◌, List, [], ◌∷◌, ℕ};
ghost use Rattle.float_format.specs.Format.{binary64, is_infinite};
ghost use Rattle.semantics.specs.Range.{doubles, wholes};
ghost use Rattle.recipe.specs.declared.Step as step;
ghost use Rattle.semantics.specs.Cause.{Named, of_a, Cause, cause, operand_of, remainder_causes, ldexp_causes, arithmetic_causes, causes_of};
ghost use Rattle.values.specs.Seen.{outcome_of};
ghost use Rattle.ranges.specs.Seen.{seen_range};
ghost use Rattle.explaining.specs.Reasons.{Tells, operand_told, code_told, is_refused};

use ranges::bounds::{difference_ends, high_power, low_power, product_ends, sum_ends};
use ranges::{Ends, Range, WholeRange};
use recipe::{Step, StepNumber};
use values::step::{difference_of, double_of, is_infinite, ldexp_of, lround_of, sum_of};
use values::{Refusal, Value};

// The operand that a reason is about, and the reason's code.
#[derive(Clone, Copy)]
pub struct Reason {
    pub operand: StepNumber,
    pub code: u64,
}

// Of two facts about an operand the first that is true, and what comes after them where neither is.
#[tactic(auto, unfolding(semantics::specs::Cause::first_cause))]
fn of_ends(
    operand: StepNumber,
    low: bool,
    c: u64,
    high: bool,
    d: u64,
    after: Option<Reason>,
) -> Option<Reason>
    ensures { (t : step.Step) (names : Named) (number : ℕ) (l : List Cause) → operand.0 ≡ operand_of t names → Tells t l (operand_told after) (code_told after) →
        Tells t (cause c names number low ∷ cause d names number high ∷ l) (operand_told result) (code_told result) }
{
    if low {
        return Some(Reason { operand, code: c });
    }
    if high {
        return Some(Reason { operand, code: d });
    }
    after
}

// The same of the two facts that an end is infinite.
fn of_infinite(
    operand: StepNumber,
    ends: Ends,
    c: u64,
    d: u64,
    after: Option<Reason>,
) -> Option<Reason>
    ensures { (t : step.Step) (names : Named) (number : ℕ) (l : List Cause) → operand.0 ≡ operand_of t names → Tells t l (operand_told after) (code_told after) →
        Tells t (cause c names number (is_infinite binary64 ends.low) ∷ cause d names number (is_infinite binary64 ends.high) ∷ l) (operand_told result) (code_told result) }
{
    let low = is_infinite(ends.low);
    let high = is_infinite(ends.high);
    of_ends(operand, low, c, high, d, after)
}

// 22, 24: of the dividend's range and the divisor's.
fn of_remainder(t: Step, a: Ends, b: Ends) -> Option<Reason>
    ensures { Tells t (remainder_causes (doubles a.low a.high) (doubles b.low b.high)) (operand_told result) (code_told result) }
{
    if b.holds_zero() {
        return Some(Reason {
            operand: t.b,
            code: 1,
        });
    }
    of_infinite(t.a, a, 2, 3, None)
}

// 23: an infinite end first, then the scaling of each end by its power.
fn of_ldexp(t: Step, a: Ends, n: WholeRange) -> Option<Reason>
    ensures { Tells t (ldexp_causes (doubles a.low a.high) (wholes n.low n.high)) (operand_told result) (code_told result) }
{
    let low_overflows = ldexp_of(a.low, low_power(a.low, n)).is_err();
    let high_overflows = ldexp_of(a.high, high_power(a.high, n)).is_err();
    let overflow = of_ends(t.a, low_overflows, 10, high_overflows, 11, None);
    of_infinite(t.a, a, 8, 9, overflow)
}

// Of a step whose two facts are that the rule refuses an end.
fn of_outcomes(
    t: Step,
    low: Result<Value, Refusal>,
    c: u64,
    high: Result<Value, Refusal>,
    d: u64,
) -> Option<Reason>
    ensures { (number : ℕ) → Tells t (cause c of_a number (is_refused (outcome_of low)) ∷ cause d of_a number (is_refused (outcome_of high)) ∷ []) (operand_told result) (code_told result) }
{
    of_ends(t.a, low.is_err(), c, high.is_err(), d, None)
}

// 40 to 42: an infinite end of A, then of B, then of the answer.
fn of_arithmetic(t: Step, a: Ends, b: Ends, answer: Ends) -> Option<Reason>
    ensures { Tells t (arithmetic_causes (doubles a.low a.high) (doubles b.low b.high) answer.low answer.high) (operand_told result) (code_told result) }
{
    let overflow = of_infinite(t.a, answer, 18, 19, None);
    let infinite = of_infinite(t.b, b, 16, 17, overflow);
    of_infinite(t.a, a, 14, 15, infinite)
}

// Why the step t is turned down, a and b being its operands' ranges.
#[tactic(auto, unfolding(semantics::specs::Cause::causes_of, semantics::specs::Cause::first_cause))]
pub(crate) fn reason_of(t: Step, a: Range, b: Range) -> Option<Reason>
    ensures { Tells t (causes_of t.opcode (seen_range a) (seen_range b)) (operand_told result) (code_told result) }
{
    let x = a.ends();
    let y = b.ends();
    let m = a.wholes();
    let n = b.wholes();
    let opcode = t.opcode;
    match opcode {
        0x18 => of_outcomes(t, lround_of(x.low), 4, lround_of(x.high), 5),
        0x22 | 0x24 => of_remainder(t, x, y),
        0x23 => of_ldexp(t, x, n),
        0x30 => of_outcomes(t, sum_of(m.low, n.low), 6, sum_of(m.high, n.high), 7),
        0x31 => of_outcomes(
            t,
            difference_of(m.low, n.high),
            6,
            difference_of(m.high, n.low),
            7,
        ),
        0x32 => of_outcomes(t, double_of(m.low), 12, double_of(m.high), 13),
        0x40 => of_arithmetic(t, x, y, sum_ends(x, y)),
        0x41 => of_arithmetic(t, x, y, difference_ends(x, y)),
        0x42 => of_arithmetic(t, x, y, product_ends(x, y)),
        _ => None,
    }
}
