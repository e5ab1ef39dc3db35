// What the programs write, how far the run program is in its input (document 01, "Sheet and run on paper"), and the call that answers many
// frame lines. Types and numbers alone: `specs/` has the definitions, `proofs/` what holds of them, and the functions stand in `stream` and
// `batch`.
#![tactic(auto)]

use recipe::LONGEST_TEXT;

// The bytes in which an empty line is looked for: those of the longest recipe, and the line feed after it.
pub const LOOKED_AT: usize = LONGEST_TEXT + 1;

// Where the input stands, and how much of it is kept.
#[derive(Clone, Copy)]
pub enum Stage {
    // In the recipe: so many bytes of it stand in the buffer.
    Recipe { count: usize },
    // In the frames: the recipe was read, and so many steps of it stand in the words; so many bytes of the present line stand in the buffer, or
    // none do, since the line is longer than the longest frame.
    Frames { steps: usize, kept: Option<usize> },
    // After a refused recipe, where nothing is answered any more.
    Done,
}

// Whether the empty line was found: not yet, yes, or not in the bytes in which it is looked for.
#[derive(Drop)]
pub enum End {
    Missing,
    Empty,
    Endless,
}

// What a piece of the input came to: the place after it, and the bytes put out.
#[derive(Clone, Copy)]
pub struct Progress {
    pub at: usize,
    pub put: usize,
}

// What the call on frame lines answers: a refusal's number and place, or how many bytes of the lines it has read and how many bytes of
// answers it has written. What is not used is 0.
#[repr(C)]
#[derive(Drop)]
pub struct LinesAnswer {
    pub refusal: u64,
    pub place: u64,
    pub read: u64,
    pub written: u64,
}
