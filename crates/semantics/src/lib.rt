// What a recipe means: the values of its steps on a frame, their ranges, and what a passed sheet promises. Types and numbers alone: `specs/`
// has the definitions, `proofs/` what holds of them, and the functions stand in the crates above.
#![tactic(auto)]

use recipe::MOST_STEPS;

// The bytes of a sheet's line, and of the longest sheet.
pub const SHEET_LINE: usize = 39;

pub const LONGEST_SHEET: usize = MOST_STEPS * SHEET_LINE;

// What the run call answers: a refusal's number and place, or the last step's kind and word. What is not used is 0.
#[repr(C)]
#[derive(Drop)]
pub struct RunAnswer {
    pub refusal: u64,
    pub place: u64,
    pub kind: u64,
    pub word: u64,
}

// What the sheet call answers: a refusal's number and place, or the number of steps. What is not used is 0.
#[repr(C)]
#[derive(Drop)]
pub struct SheetAnswer {
    pub refusal: u64,
    pub place: u64,
    pub steps: u64,
}

// What the explain call answers: a refusal's number and place, where the text itself is refused; or the step that the sheet turns down, its
// operand's step and the reason's code. What is not used is 0, and all of a recipe whose sheet passes.
#[repr(C)]
#[derive(Drop)]
pub struct ExplainAnswer {
    pub refusal: u64,
    pub place: u64,
    pub step: u64,
    pub operand: u64,
    pub reason: u64,
}
