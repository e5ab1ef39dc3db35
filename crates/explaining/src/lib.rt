// Why a recipe's sheet is refused (document 02, W-205): the step, the operand and the reason's code.
#![tactic(auto)]

ghost use Rattle.std.specs.Prelude.{◌≡◌, List, []};
ghost use Rattle.recipe.specs.declared.Step.{Step};
ghost use Rattle.recipe.specs.Packed.{steps_of};
ghost use Rattle.recipe.specs.Answer.{Holds};
ghost use Rattle.semantics.specs.Explain.{explain_steps, explain_of, answer_of};
ghost use Rattle.explaining.specs.Answer.{answered, explained_by};
ghost use Rattle.explaining.specs.Packed.{carried_from, explain_words};

use calls::Refused;
use causes::{Reason, reason_of};
use ranges::bounds::step_range;
use ranges::{Range, WholeRange};
use reader::read;
use recipe::{MOST_STEPS, MOST_WORDS, StepNumber};
use semantics::ExplainAnswer;
use steps::Steps;
use values::place_of;

mod causes;

// The step that the sheet turns down, and why.
#[derive(Clone, Copy)]
struct TurnedDown {
    step: StepNumber,
    why: Option<Reason>,
}

// What C is told: the step that the sheet turns down, if there is one, or that the recipe itself is refused.
fn answer(explained: Result<Option<TurnedDown>, Refused>) -> ExplainAnswer
    ensures { result ≡ answered explained }
{
    match explained {
        Ok(Some(turned)) => {
            let (operand, reason) = match turned.why {
                Some(why) => (u64::from(why.operand.0), why.code),
                None => (0, 0),
            };
            ExplainAnswer {
                refusal: 0,
                place: 0,
                step: u64::from(turned.step.0),
                operand,
                reason,
            }
        }
        Ok(None) => ExplainAnswer {
            refusal: 0,
            place: 0,
            step: 0,
            operand: 0,
            reason: 0,
        },
        Err(why) => ExplainAnswer::from(why),
    }
}

// The explanation of the steps: their ranges up to the first that is turned down, as the sheet has them.
fn explain_steps(steps: Steps) -> Option<TurnedDown>
    ensures { explained_by result ≡ carried_from (steps_of steps.entry.words.now) 0 [] }
{
    let n = steps.len();
    let mut ranges = [Range::Wholes(WholeRange { low: 0, high: 0 }); MOST_STEPS];
    for i in 0..n {
        let t = steps.at(i);
        let f = place_of(t.a, i);
        let g = place_of(t.b, i);
        let a = ranges[f];
        let b = ranges[g];
        let r = match step_range(t, a, b) {
            Ok(r) => r,
            Err(_) => {
                let why = reason_of(t, a, b);
                return Some(TurnedDown {
                    step: StepNumber(i as u16),
                    why,
                });
            }
        };
        ranges[i] = r;
    }
    None
}

// The explanation of a recipe's words.
fn explain_on_words(steps: &[u64]) -> Result<Option<TurnedDown>, Refused>
    ensures { answered result ≡ answer_of (explain_words steps.now) }
{
    let Some(recipe) = Steps::new(steps) else {
        return Err(Refused::Words);
    };
    Ok(explain_steps(recipe))
}

// Why the sheet of a recipe that was read is refused with 20 to 22: the step, the step of the operand that the reason is about, and the reason's
// code, which names a fact that is true of the ranges of earlier steps; no fact before it in the opcode's list is. All are 0 where the sheet
// passes, given room. `steps` has the recipe's steps, three words each, as the reader put them.
//
// Refuses, of words that the reader gave for no text: 10 where they are not three each for 1 to 128 steps, at place 0.
//
// The first part of the contract speaks of any words; the second of those of formed steps, of which no range has an end that is a NaN, so
// that floats carry the ends as they are.
pub fn explain_recipe(steps: &[u64]) -> ExplainAnswer
    ensures value { result ≡ answer_of (explain_words steps.now) }
    ensures of_steps { (l : List Step) → Holds l steps.now → result ≡ answer_of (explain_steps l) }
{
    answer(explain_on_words(steps))
}

// The explanation of a recipe's text.
fn explain_on_text(text: &[u8]) -> Result<Option<TurnedDown>, Refused>
    ensures { answered result ≡ answer_of (explain_of text.now) }
{
    let mut steps = [0u64; MOST_WORDS];
    let n = read(text, &mut steps)?;
    let size = 3 * n;
    explain_on_words(&steps[..size])
}

// The same of a recipe's text. Refuses 10 to 17 as the reader does.
pub fn explain(text: &[u8]) -> ExplainAnswer
    ensures { result ≡ answer_of (explain_of text.now) }
{
    answer(explain_on_text(text))
}
