// A step's value, and the step rules.
#![tactic(auto)]

ghost use Rattle.std.specs.Prelude.{◌≡◌, cond, ◌≤◌, ltb};
ghost use Rattle.values.specs.Seen.{number_of};

pub use numbers::Number;
use recipe::StepNumber;

mod numbers;
pub mod step;
mod values;

// A step's value: a double or a whole number.
#[derive(Clone, Copy)]
pub enum Value {
    Double(Number),
    Whole(i64),
}

// Why a step has no value, and on the sheet no range.
#[derive(Clone, Copy, PartialEq, Eq)]
pub enum Refusal {
    // An operand for which the step has no answer: an infinite one, or a divisor that is zero.
    Undefined,
    // An answer that is too large.
    Overflow,
    // A whole number that is too large to be a double's number for certain.
    Inexact,
}

// The number by which a caller is told.
impl From<Refusal> for u64 {
    ghost from_gives = { λ why number. number ≡ number_of why };

    fn from(why: Refusal) -> u64 {
        match why {
            Refusal::Undefined => 20,
            Refusal::Overflow => 21,
            Refusal::Inexact => 22,
        }
    }
}

// Where step i finds its operand k: at k, if that is an earlier step. Else at i itself, whose place still holds the start element.
pub fn place_of(k: StepNumber, i: usize) -> usize
    ensures { (result ≡ cond (ltb k.0 i) k.0 i) × (result ≤ i) }
{
    usize::from(k.0).min(i)
}
