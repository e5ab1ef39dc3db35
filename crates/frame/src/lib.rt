// Reading a frame for a recipe's inputs: the words, and refusals 30 to 32 (document 01, "Turning text down").
#![tactic(auto)]

ghost use Rattle.std.specs.Prelude.{◌≡◌, cond, List, [], ℕ, ◌+◌, ◌*◌, ◌/◌, ◌%◌, ◌^◌, ◌≤◌, get_or, length};
ghost use Rattle.recipe.specs.Table.{row_of, is_input};
ghost use Rattle.recipe.specs.Text.{inputs_in};
ghost use Rattle.recipe.specs.Packed.{steps_of};
ghost use Rattle.semantics.specs.Frame.{words_from, outside, ranged};
ghost use Rattle.frame.specs.Stages.{Same, Read, ranged_by};

use calls::Refused;
use float_format::Pattern;
use recipe::{InputNumber, Kind, Row, Step, StepNumber};
use steps::Steps;
use steps::order::{double_above, whole_above};
use steps::table::{declares_input, row_of};

// The number of the next input after a step with this opcode: the one after n where the step is an input, else still n. Numbers have 16 bits and
// wrap, at a number of steps that no recipe has.
pub fn next_input(n: InputNumber, opcode: u8) -> InputNumber
    ensures { result.0 ≡ (cond (is_input (row_of opcode)) 1 0 + n.0) % 2 ^ 16 }
{
    if declares_input(opcode) {
        return InputNumber(((n.0 as u32 + 1) % 0x1_0000) as u16);
    }
    n
}

// How many of the steps are inputs.
pub fn input_total(steps: Steps) -> usize
    ensures { (result ≡ inputs_in (steps_of steps.entry.words.now)) × (result ≤ length steps.entry.words.now / 3) }
{
    let mut next = InputNumber(0);
    for i in 0..steps.len() {
        next = next_input(next, steps.at(i).opcode);
    }
    next.0 as usize
}

// The words of a frame of n inputs, 16 digits each, and 0 in the places past them.
pub fn read_words(frame: &[u8], n: usize) -> Result<[u64; 16], Refused>
    requires { (n * 16 ≤ length frame.now) × (n ≤ 16) }
    ensures { Read (words_from frame.now n 0 []) result }
{
    let mut words = [0u64; 16];
    for i in 0..n {
        let at = i * 16;
        let Some(w) = hexadecimal::read(&frame[at..at + 16]) else {
            return Err(Refused::FrameDigit);
        };
        words[i] = w;
    }
    Ok(words)
}

// Whether w is not a value that the step t, of the row, declares: a NaN, or outside P to Q. Of a step that is no input, false.
fn is_outside(row: Row, t: Step, w: u64) -> bool
    ensures { result ≡ outside row t w }
{
    let p = t.p;
    let q = t.q;
    match row {
        Row::Unknown => false,
        Row::Input(k) => match k {
            Kind::Double => w.is_nan() | double_above(p, w) | double_above(w, q),
            Kind::Whole => whole_above(p, w) | whole_above(w, q),
        },
        Row::Constant(_) => false,
        Row::Unary(_, _) => false,
        Row::Binary(_, _, _) => false,
    }
}

// The same of the step's own row. Whether it is an input is asked first, for most steps are none, and what else the row says does not matter
// then.
fn is_refused(t: Step, w: u64) -> bool
    ensures { result ≡ outside (row_of t.opcode) t w }
{
    if declares_input(t.opcode) {
        return is_outside(row_of(t.opcode), t, w);
    }
    false
}

// The word of an input, of those that were read; 0 past them.
pub fn input_word(inputs: &[u64; 16], n: InputNumber) -> u64
    ensures { result ≡ get_or inputs.now n.0 0 }
{
    inputs.get(n.0 as usize).copied().unwrap_or(0)
}

// Holds the inputs' words to the ranges that the steps declare.
pub fn check_ranges(steps: Steps, inputs: &[u64; 16]) -> Result<(), Refused>
    ensures { (ws : List ℕ) → Same inputs.now ws → ranged (steps_of steps.entry.words.now) 0 0 ws ≡ ranged_by result ws }
{
    let mut next = InputNumber(0);
    for i in 0..steps.len() {
        let t = steps.at(i);
        if is_refused(t, input_word(inputs, next)) {
            return Err(Refused::Outside(StepNumber(i as u16)));
        }
        next = next_input(next, t.opcode);
    }
    Ok(())
}
