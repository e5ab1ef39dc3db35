// Recipes: what a step is, and why a text is turned down (document 01, "Recipe text"). Types alone: `specs/` defines what they mean, `proofs/`
// shows what holds of that, and the functions stand in the crates above.
#![tactic(auto)]

// The most steps that a recipe has.
pub const MOST_STEPS: usize = 128;

// The words that the most steps take: three a step (`specs/Packed.antt`).
pub const MOST_WORDS: usize = 3 * MOST_STEPS;

// The bytes of a line of a recipe's text, and of the longest text.
pub const LINE_LENGTH: usize = 39;

pub const LONGEST_TEXT: usize = MOST_STEPS * LINE_LENGTH;

// A step's place in its recipe, counted from 0.
#[derive(Clone, Copy)]
pub struct StepNumber(pub u16);

// An input's place in a frame, counted from 0 apart from the steps: step 5 may be input 1.
#[derive(Clone, Copy)]
pub struct InputNumber(pub u16);

// What a value is: a double, or a whole number of 64 bits with its sign.
#[derive(Clone, Copy, PartialEq, Eq)]
pub enum Kind {
    Double,
    Whole,
}

// What the step table says of an opcode: where its value comes from, the kinds of its operands, and last the kind of its value.
#[derive(Clone, Copy)]
pub enum Row {
    Unknown,
    Input(Kind),
    Constant(Kind),
    Unary(Kind, Kind),
    Binary(Kind, Kind, Kind),
}

// A line's fields. A step that passed the reader has zeros where its opcode uses nothing, and its operands stand before it.
#[derive(Clone, Copy)]
pub struct Step {
    pub opcode: u8,
    pub a: StepNumber,
    pub b: StepNumber,
    pub p: u64,
    pub q: u64,
}

// Why a text is turned down, by its number in document 01's "Turning text down".
#[derive(Clone, Copy, PartialEq, Eq)]
pub enum Fault {
    Length = 10,
    Malformed = 11,
    UnknownOpcode = 12,
    UnusedField = 13,
    OperandAhead = 14,
    WrongKind = 15,
    BadRange = 16,
    TooManyInputs = 17,
}

// A text's first fault and the step where it is; of a wrong length, step 0.
#[derive(Clone, Copy)]
pub struct Refusal {
    pub fault: Fault,
    pub place: StepNumber,
}

// What the definitions say of a reading (`specs/Answer.antt`); no code makes one. How many steps were read. Or the number of a refusal, 10 to
// 17, and its place, a step or 0 of refusal 10, with `count` 0; `refusal` is 0 where there is none.
#[derive(Drop)]
pub struct Reading {
    pub count: usize,
    pub refusal: u64,
    pub place: StepNumber,
}
