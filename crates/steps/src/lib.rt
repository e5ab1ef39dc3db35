// One step of a recipe, as the reader, the run and the sheet take it: its row of the step table, its three words, and the order of its P and Q.
#![tactic(auto)]

ghost use Rattle.std.specs.Prelude.{◌≡◌, true, false, [], ◌∷◌, ◌++◌, ◌*◌, ◌+◌, ◌/◌, ◌%◌, ◌<◌, ◌≤◌, length, MatchOption};
ghost use Rattle.recipe.specs.Packed.{head, step_at, put_at, steps_in, bad_words};
ghost use Rattle.recipe.specs.Text.{most_steps};

use recipe::{MOST_WORDS, Step, StepNumber};

pub mod order;
pub mod table;

// Whether so many words are not those of 1 to 128 steps.
pub fn bad_words(n: usize) -> bool
    ensures { result ≡ bad_words n }
{
    (n == 0) | (n % 3 != 0) | (MOST_WORDS < n)
}

// Step i of the words that a recipe's steps stand in.
pub fn step_at(steps: &[u64], i: usize) -> Step
    requires { 3 * i + 2 < length steps.now }
    ensures { result ≡ step_at steps.now i }
{
    let at = 3 * i;
    let head = steps[at];
    Step {
        opcode: (head % 0x100) as u8,
        a: StepNumber((head / 0x100 % 0x1_0000) as u16),
        b: StepNumber((head / 0x100_0000 % 0x1_0000) as u16),
        p: steps[at + 1],
        q: steps[at + 2],
    }
}

// Words that steps stand in, three a step and at most 128 steps: what the run, the sheet and the explanation go through once the words that a
// caller lends have been counted.
#[derive(Clone, Copy)]
pub struct Steps<'a> {
    pub words: &'a [u64],
    ghost whole: { length words.now % 3 ≡ 0 },
    ghost few: { length words.now ≤ 3 * most_steps },
}

impl<'a> Steps<'a> {
    // The steps that stand in the words; None where these are not three each for 1 to 128 steps.
    pub fn new(words: &'a [u64]) -> Option<Steps<'a>>
        ensures { MatchOption result (bad_words (length words.now) ≡ true) (λ s. (s.words.now ≡ words.now) × (bad_words (length words.now) ≡ false)) }
    {
        if bad_words(words.len()) {
            return None;
        }
        Some(Steps { words })
    }

    // How many steps there are.
    pub fn len(self) -> usize
        ensures count { result ≡ length self.entry.words.now / 3 }
        ensures whole { 3 * result ≡ length self.entry.words.now }
        ensures few { result ≤ most_steps }
    {
        self.words.len() / 3
    }

    // Step i.
    pub fn at(self, i: usize) -> Step
        requires { i < length self.words.now / 3 }
        ensures { result ≡ step_at self.entry.words.now i }
    {
        step_at(self.words, i)
    }
}

// A step's first word: its opcode, A and B.
fn head_of(t: Step) -> u64
    ensures { result ≡ head t }
{
    t.opcode as u64 + 0x100 * t.a.0 as u64 + 0x100_0000 * t.b.0 as u64
}

// Puts the step t into the words, as step i: it then stands after the i steps before it.
pub fn put_step(steps: &mut [u64], i: usize, t: Step)
    requires { 3 * i + 2 < length steps.old }
    ensures { (steps.new ≡ put_at steps.old i t)
        × (steps_in steps.new (i + 1) ≡ steps_in steps.old i ++ (t ∷ [])) }
{
    let at = 3 * i;
    steps[at] = head_of(t);
    steps[at + 1] = t.p;
    steps[at + 2] = t.q;
}
