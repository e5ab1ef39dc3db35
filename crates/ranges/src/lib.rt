// Ranges, and the range rules.
#![tactic(auto)]

use values::Number;

pub mod bounds;
mod ranges;

// A range of doubles, both ends included.
#[derive(Clone, Copy)]
pub struct DoubleRange {
    pub low: Number,
    pub high: Number,
}

// A range of whole numbers, both ends included.
#[derive(Clone, Copy)]
pub struct WholeRange {
    pub low: i64,
    pub high: i64,
}

// What a step's values lie in.
#[derive(Clone, Copy)]
pub enum Range {
    Doubles(DoubleRange),
    Wholes(WholeRange),
}

// The ends of a range of doubles as patterns, or the low and the high answer of add, subtract or multiply. Either may be infinite.
#[derive(Clone, Copy)]
pub struct Ends {
    pub low: u64,
    pub high: u64,
}
