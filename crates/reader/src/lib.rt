// Recipes: text read to steps, or turned down with the number and the place of the first fault (document 01, "Recipe text").
#![tactic(auto)]

ghost use Rattle.std.specs.Prelude.{◌≡◌, ◌*◌, ◌≤◌, length};
ghost use Rattle.recipe.specs.Text.{most_steps, short, read_text, bad_length};
ghost use Rattle.recipe.specs.Answer.{Says, Leaves};
ghost use Rattle.reader.specs.Checks.{reading_of};

use checks::{input_count, judge};
use lines::line_of;
use recipe::{Fault, Kind, LINE_LENGTH, LONGEST_TEXT, MOST_STEPS, Refusal, StepNumber};
use steps::put_step;
use steps::table::{answer_kind, row_of};

mod checks;
mod lines;

// Check 10: no line, not whole lines, or too many.
fn bad_length(n: usize) -> bool
    ensures { result ≡ bad_length short n }
{
    (n == 0) | (n % LINE_LENGTH != 0) | (LONGEST_TEXT < n)
}

// The steps of a recipe's text: lines of 39 bytes, 1 to 128 of them. Each step is put into three of the words that the caller lends, and the
// answer says how many there are.
//
// Refuses 10 where the length is 0, not a multiple of 39 or over 4,992, at place 0. Else the first line, and in it the first of these, at
// the line's number: 11 a digit that is no lower-case hexadecimal digit, or no line feed; 12 an unknown opcode; 13 an unused field not
// zero; 14 an operand not below the step's number; 15 an operand of the wrong kind; 16 a NaN in a double input or constant, or an input
// with P above Q; 17 a seventeenth input.
//
// The words are working memory: none is read, none past those of the steps is written, and after a refusal they may hold the steps before the
// fault. So this is not an entry point: the calls of the crates above lend words of their own.
pub fn read(text: &[u8], steps: &mut [u64]) -> Result<usize, Refusal>
    requires { 3 * most_steps ≤ length steps.old }
    ensures { (length steps.new ≡ length steps.old)
        × Says (read_text short text.now) (reading_of result) steps.new
        × Leaves (read_text short text.now) steps.old steps.new }
{
    let size = text.len();
    if bad_length(size) {
        return Err(Refusal {
            fault: Fault::Length,
            place: StepNumber(0),
        });
    }
    let n = size / LINE_LENGTH;
    // each step's kind, and double where no step stands yet
    let mut kinds = [Kind::Double; MOST_STEPS];
    let mut inputs: u64 = 0;
    for i in 0..n {
        let place = StepNumber(i as u16);
        let at = i * LINE_LENGTH;
        let Some(t) = line_of(&text[at..at + LINE_LENGTH]) else {
            return Err(Refusal {
                fault: Fault::Malformed,
                place,
            });
        };
        // What the row says is asked while its tests are still at hand: the compiler then folds the answers into them.
        let row = row_of(t.opcode);
        let kind = answer_kind(row);
        let counted = input_count(row);
        if let Some(fault) = judge(&kinds, i as u64, inputs, row, t) {
            return Err(Refusal { fault, place });
        }
        put_step(steps, i, t);
        kinds[i] = kind;
        inputs += counted;
    }
    Ok(n)
}
