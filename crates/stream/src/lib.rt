// The run program's work: its input in chunks that are cut anywhere, its output piece by piece (document 01, "Sheet and run on paper").
//
// `Stream::new`, then `feed` with what is left of each chunk until it is used up, then `finish`: the bytes put out are those that `run_output` of
// `programs/specs/Output.antt` says of the whole input, however it was cut (`programs/proofs/Chunks.antt`).
#![tactic(auto)]

ghost use Rattle.std.specs.Prelude.{◌≡◌, List, [], ◌++◌, ℕ, ◌*◌, ◌≤◌, ◌<◌, length, take};
ghost use Rattle.recipe.specs.Fault.{number_of};
ghost use Rattle.recipe.specs.Text.{most_steps};
ghost use Rattle.programs.specs.Output.{looked_at, on_recipe, part_after, parted};
ghost use Rattle.programs.specs.Stage.{heading, recipe_bytes, step_words, line_bytes, Untouched};

use frames::{kept_line, take_lines};
use head::take_recipe;
use output::refusal_line;
use programs::{End, LOOKED_AT, Progress, Stage};
use recipe::{Fault, MOST_WORDS};

mod frames;
mod head;

pub use frames::answer_lines;

// The number of what a text is turned down for.
fn fault_number(fault: Fault) -> u64
    ensures { result ≡ number_of fault }
{
    fault as u64
}

// The run program's input so far: the bytes of a recipe or a line that is not at its end yet, and the steps of the recipe once it is read.
#[derive(Drop)]
pub struct Stream {
    stage: Stage,
    buffer: [u8; LOOKED_AT],
    words: [u64; MOST_WORDS],
    ghost few: { (recipe_bytes stage ≤ looked_at) × (step_words stage ≤ 3 * most_steps) × (line_bytes stage ≤ 256) },
}

impl Stream {
    ghost use Rattle.stream.specs.Held.{Begins, is_over, recipe_bytes_of, recipe_of, Reads, Goes, Ends, Stays};

    // The stream before the input.
    pub fn new() -> Self
        ensures { Begins result }
    {
        Stream {
            stage: Stage::Recipe { count: 0 },
            buffer: [0; LOOKED_AT],
            words: [0; MOST_WORDS],
        }
    }

    // Whether nothing is answered any more, whatever follows.
    pub fn is_done(&self) -> bool
        ensures { result ≡ is_over self.now }
    {
        matches!(self.stage, Stage::Done)
    }

    // Reads the recipe whose text is the first n bytes of the buffer, and writes its refusal line where it is refused.
    fn open(&mut self, n: usize, out: &mut [u8]) -> usize
        requires { (n ≤ looked_at) × (19 ≤ length out.old) }
        ensures { (result ≤ 19) × (take result out.new ≡ on_recipe (recipe_of n self.old) (λ l. []))
            × ((t piece : List ℕ) → ((s : List ℕ) → part_after t (piece ++ s) ≡ parted (recipe_bytes_of n self.old) s) →
            Reads (heading t) piece (take result out.new) self.new)
            × Untouched result out.old out.new × (self.new.buffer ≡ self.old.buffer) }
    {
        match reader::read(&self.buffer[..n], &mut self.words) {
            Ok(steps) => {
                self.stage = Stage::Frames {
                    steps,
                    kept: Some(0),
                };
                0
            }
            Err(refusal) => {
                self.stage = Stage::Done;
                refusal_line(fault_number(refusal.fault), u64::from(refusal.place.0), out)
            }
        }
    }

    // Feeds a chunk in the recipe, of which so many bytes stand in the buffer.
    fn feed_recipe(&mut self, count: usize, chunk: &[u8], out: &mut [u8]) -> Progress
        requires { (count ≤ looked_at) × (0 < length chunk.now) × (19 ≤ length out.old) }
        ensures { (0 < result.at) × (result.at ≤ length chunk.now) × (result.put ≤ 19)
            × Reads (heading (recipe_bytes_of count self.old)) (take result.at chunk.now) (take result.put out.new) self.new
            × Untouched result.put out.old out.new }
    {
        let head = take_recipe(&mut self.buffer, count, chunk);
        let put = match head.end {
            End::Missing => {
                self.stage = Stage::Recipe { count: head.count };
                0
            }
            End::Empty => self.open(head.count, out),
            End::Endless => {
                self.stage = Stage::Done;
                refusal_line(10, 0, out)
            }
        };
        Progress { at: head.at, put }
    }

    // Feeds a chunk of the input, and writes what is due at the start of out; stops where the chunk is used up, where out has too little room for
    // another line, and after the recipe.
    pub fn feed(&mut self, chunk: &[u8], out: &mut [u8]) -> Progress
        requires { (0 < length chunk.now) × (19 ≤ length out.old) }
        ensures { (0 < result.at) × (result.at ≤ length chunk.now) × (result.put ≤ length out.old)
            × Goes self.old (take result.at chunk.now) (take result.put out.new) self.new
            × Untouched result.put out.old out.new }
    {
        match self.stage {
            Stage::Recipe { count } => self.feed_recipe(count, chunk, out),
            Stage::Frames { steps, kept } => {
                let words = &self.words[..3 * steps];
                let turn = take_lines(words, &mut self.buffer, kept, chunk, out);
                self.stage = Stage::Frames {
                    steps,
                    kept: turn.kept,
                };
                turn.progress
            }
            Stage::Done => Progress {
                at: chunk.len(),
                put: 0,
            },
        }
    }

    // Writes what is due where the input ends, and answers how many bytes that is. The stream stands for the same input afterwards.
    pub fn finish(&mut self, out: &mut [u8]) -> usize
        requires { 19 ≤ length out.old }
        ensures { (result ≤ length out.old) × Ends self.old (take result out.new) × Untouched result out.old out.new × Stays self.old self.new }
    {
        match self.stage {
            Stage::Recipe { count } => {
                let put = self.open(count, out);
                self.stage = Stage::Recipe { count };
                put
            }
            Stage::Frames { steps, kept } => {
                if matches!(kept, Some(0)) {
                    return 0;
                }
                kept_line(&self.words[..3 * steps], &self.buffer, kept, out)
            }
            Stage::Done => 0,
        }
    }
}
