// Running a recipe on a frame (document 01, "Recipe text", "Turning text down" and "The terms of demand 3").
#![tactic(auto)]

ghost use Rattle.std.specs.Prelude.{◌≡◌, List, [], ℕ, ◌/◌, ◌≤◌, length};
ghost use Rattle.recipe.specs.declared.Step.{Step};
ghost use Rattle.recipe.specs.Text.{steps, short, read_text};
ghost use Rattle.recipe.specs.Packed.{steps_of};
ghost use Rattle.recipe.specs.Answer.{Holds};
ghost use Rattle.semantics.specs.Run.{answer_of, words_of, run_steps, run_of};
ghost use Rattle.semantics.specs.Promise.{Keeps};
ghost use Rattle.frame.specs.Stages.{Same};
ghost use Rattle.running.specs.Carried.{carried_from};
ghost use Rattle.running.specs.Packed.{run_words};
ghost use Rattle.running.specs.Answer.{answered};

use calls::Refused;
use frame::{check_ranges, input_total, input_word, next_input, read_words};
use reader::read;
use recipe::{InputNumber, Kind, MOST_STEPS, MOST_WORDS, StepNumber};
use semantics::RunAnswer;
use steps::Steps;
use steps::table::kind_number;
use values::step::step_value;
use values::{Value, place_of};

// The kind and the word of a completed run's last value.
#[derive(Clone, Copy)]
struct Last {
    kind: Kind,
    word: u64,
}

// What C is told of a run.
fn answer(run: Result<Last, Refused>) -> RunAnswer
    ensures { result ≡ answered run }
{
    match run {
        Ok(last) => RunAnswer {
            refusal: 0,
            place: 0,
            kind: u64::from(kind_number(last.kind)),
            word: last.word,
        },
        Err(why) => RunAnswer::from(why),
    }
}

// Runs the steps, and writes their words only after the last has its value.
fn evaluate(steps: Steps, inputs: [u64; 16], words: &mut [u64]) -> Result<Last, Refused>
    requires { length steps.words.now / 3 ≤ length words.old }
    ensures { (ws : List ℕ) → Same inputs ws →
        (answered result ≡ answer_of (carried_from (steps_of steps.entry.words.now) 0 0 ws []))
        × (words.new ≡ words_of (carried_from (steps_of steps.entry.words.now) 0 0 ws []) words.old) }
{
    let n = steps.len();
    let mut values = [Value::Whole(0); MOST_STEPS];
    let mut next = InputNumber(0);
    for i in 0..n {
        let t = steps.at(i);
        let a = values[place_of(t.a, i)];
        let b = values[place_of(t.b, i)];
        let v = match step_value(t, input_word(&inputs, next), a, b) {
            Ok(v) => v,
            Err(why) => return Err(Refused::Step(why, StepNumber(i as u16))),
        };
        values[i] = v;
        next = next_input(next, t.opcode);
    }
    for j in 0..n {
        let v = values[j];
        words[j] = v.word();
    }
    let end = n.saturating_sub(1);
    let last = values[end];
    Ok(Last {
        kind: last.kind(),
        word: last.word(),
    })
}

// The run of a recipe's words.
fn run_on_words(steps: &[u64], frame: &[u8], words: &mut [u64]) -> Result<Last, Refused>
    ensures { (answered result ≡ answer_of (run_words steps.now frame.now (length words.old)))
        × (words.new ≡ words_of (run_words steps.now frame.now (length words.old)) words.old) }
{
    let Some(recipe) = Steps::new(steps) else {
        return Err(Refused::Words);
    };
    let n = recipe.len();
    let m = input_total(recipe);
    if m > 16 {
        return Err(Refused::Inputs);
    }
    if words.len() < n {
        return Err(Refused::Room);
    }
    if frame.len() != m * 16 {
        return Err(Refused::FrameLength);
    }
    let inputs = read_words(frame, m)?;
    check_ranges(recipe, &inputs)?;
    evaluate(recipe, inputs, words)
}

// Runs a recipe that was read, on one frame: writes one word per step, and answers the last step's kind and word. The rest of the words stays
// as lent, and so does all of it where the run is refused. `steps` has the recipe's steps, three words each, as the reader put them.
//
// Refuses, in this order: 40 where there are fewer words than steps, at place 0; 30 where the frame is not 16 digits per input, 31 where a byte
// of it is no lower-case hexadecimal digit, both at place 0; 32 where an input is a NaN or outside its declared range, at the input's step;
// then the first step's 20 to 22, at that step. Before these, of words that the reader gave for no text: 10 where they are not three each for
// 1 to 128 steps, 17 where more than 16 of the steps are inputs, both at place 0.
//
// The first part of the contract speaks of any words, the second of those of formed steps, of which no value is a NaN, so that floats carry
// the values as they are. With it comes demand 3: where the sheet of the steps is passed and the frame's inputs lie in their ranges, the run
// completes, and every value has the kind and lies in the range that the sheet shows.
pub fn run_recipe(steps: &[u64], frame: &[u8], words: &mut [u64]) -> RunAnswer
    ensures value { (result ≡ answer_of (run_words steps.now frame.now (length words.old)))
        × (words.new ≡ words_of (run_words steps.now frame.now (length words.old)) words.old) }
    ensures of_steps { (l : List Step) → Holds l steps.now →
        ((result ≡ answer_of (run_steps l frame.now (length words.old)))
        × (words.new ≡ words_of (run_steps l frame.now (length words.old)) words.old))
        × Keeps l frame.now words.old result words.new }
{
    answer(run_on_words(steps, frame, words))
}

// The run of a recipe's text.
fn run_on_text(text: &[u8], frame: &[u8], words: &mut [u64]) -> Result<Last, Refused>
    ensures { (answered result ≡ answer_of (run_of text.now frame.now (length words.old)))
        × (words.new ≡ words_of (run_of text.now frame.now (length words.old)) words.old) }
{
    let mut steps = [0u64; MOST_WORDS];
    let n = read(text, &mut steps)?;
    let size = 3 * n;
    run_on_words(&steps[..size], frame, words)
}

// The same of a recipe's text. Refuses 10 to 17 as the reader does, before all others.
pub fn run(text: &[u8], frame: &[u8], words: &mut [u64]) -> RunAnswer
    ensures value { (result ≡ answer_of (run_of text.now frame.now (length words.old)))
        × (words.new ≡ words_of (run_of text.now frame.now (length words.old)) words.old) }
    ensures keeps { (l : List Step) → read_text short text.now ≡ steps l → Keeps l frame.now words.old result words.new }
{
    answer(run_on_text(text, frame, words))
}
