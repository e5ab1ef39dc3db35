// What one step is refused for: the checks 12 to 17 of document 01's "Turning text down", in its order.
ghost use Rattle.std.specs.Prelude.{◌≡◌, cond, List, ℕ, ◌≤◌, get_or};
ghost use Rattle.recipe.specs.declared.Kind.TheVariants.{Double};
ghost use Rattle.recipe.specs.declared.Step.{Step};
ghost use Rattle.recipe.specs.Table.{row_of, is_input};
ghost use Rattle.recipe.specs.Text.{is_unknown, unused_set, operand_ahead, bad_range, step_refusal};
ghost use Rattle.reader.specs.Checks.{wrong_kinds, refusal_by, refusal_number, Known};

use float_format::Pattern;
use recipe::{Fault, Kind, MOST_STEPS, Row, Step};
use steps::order::{double_above, whole_above};
use steps::table::is_input;

// Check 12: an opcode that the table does not have.
fn is_unknown(row: Row) -> bool
    ensures { result ≡ is_unknown row }
{
    matches!(row, Row::Unknown)
}

// Check 13: a field that the step does not use is not zero.
fn unused_set(row: Row, t: Step) -> bool
    ensures { result ≡ unused_set row t }
{
    let a = t.a.0 != 0;
    let b = t.b.0 != 0;
    let p = t.p != 0;
    let q = t.q != 0;
    match row {
        Row::Unknown => false,
        Row::Input(_) => a | b,
        Row::Constant(_) => a | b | q,
        Row::Unary(_, _) => b | p | q,
        Row::Binary(_, _, _) => p | q,
    }
}

// Check 14: an operand that the step uses is not below the step's own number n.
fn operand_ahead(row: Row, n: u64, t: Step) -> bool
    ensures { result ≡ operand_ahead row n t }
{
    let a = n <= t.a.0 as u64;
    let b = n <= t.b.0 as u64;
    match row {
        Row::Unknown | Row::Input(_) | Row::Constant(_) => false,
        Row::Unary(_, _) => a,
        Row::Binary(_, _, _) => a | b,
    }
}

// Check 15: an operand, of the kind a or b, is not of the kind that the row takes.
fn wrong_kind(row: Row, a: Kind, b: Kind) -> bool
    ensures { result ≡ wrong_kinds row a b }
{
    match row {
        Row::Unknown | Row::Input(_) | Row::Constant(_) => false,
        Row::Unary(x, _) => a != x,
        Row::Binary(x, y, _) => (a != x) | (b != y),
    }
}

// Check 16: P or Q a NaN in a double input or constant, or an input with P above Q.
fn bad_range(row: Row, t: Step) -> bool
    ensures { result ≡ bad_range row t }
{
    let p = t.p;
    let q = t.q;
    match row {
        Row::Unknown => false,
        Row::Input(k) => match k {
            Kind::Double => p.is_nan() | q.is_nan() | double_above(p, q),
            Kind::Whole => whole_above(p, q),
        },
        Row::Constant(k) => match k {
            Kind::Double => p.is_nan(),
            Kind::Whole => false,
        },
        Row::Unary(_, _) | Row::Binary(_, _, _) => false,
    }
}

// The first check that step n, with the operands' kinds a and b and so many inputs before it, does not pass, if any.
fn refusal_of(row: Row, t: Step, n: u64, inputs: u64, a: Kind, b: Kind) -> Option<Fault>
    ensures { refusal_number result ≡ refusal_by row t n inputs a b }
{
    if is_unknown(row) {
        return Some(Fault::UnknownOpcode);
    }
    if unused_set(row, t) {
        return Some(Fault::UnusedField);
    }
    if operand_ahead(row, n, t) {
        return Some(Fault::OperandAhead);
    }
    if wrong_kind(row, a, b) {
        return Some(Fault::WrongKind);
    }
    if bad_range(row, t) {
        return Some(Fault::BadRange);
    }
    if is_input(row) {
        if 16 <= inputs {
            return Some(Fault::TooManyInputs);
        }
    }
    None
}

// The kind of step k, by the kinds of the steps so far, and double, as of an unknown opcode, where k is none of them: check 14 turns such an
// operand down before its kind matters.
//
// The kinds are kept as the steps are read: to look each up in the table again, by the opcode in the words, takes branches that no processor
// foresees.
fn kind_at(kinds: &[Kind; MOST_STEPS], k: u16) -> Kind
    ensures { result ≡ get_or kinds.now k Double }
{
    kinds.get(k as usize).copied().unwrap_or(Kind::Double)
}

// What the step t of this row is refused for, after n steps of these kinds, so many of them inputs, if for anything.
pub(crate) fn judge(
    kinds: &[Kind; MOST_STEPS],
    n: u64,
    inputs: u64,
    row: Row,
    t: Step,
) -> Option<Fault>
    requires { row ≡ row_of t.opcode }
    ensures { (l : List Step) → Known l n inputs kinds.now → refusal_number result ≡ step_refusal l t }
{
    let a = kind_at(kinds, t.a.0);
    let b = kind_at(kinds, t.b.0);
    refusal_of(row, t, n, inputs, a, b)
}

// 1 for an input, 0 for any other step.
pub(crate) fn input_count(row: Row) -> u64
    ensures { (result ≡ cond (is_input row) 1 0) × (result ≤ 1) }
{
    if is_input(row) { 1 } else { 0 }
}
