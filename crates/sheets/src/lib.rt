// The sheet of a recipe: the range and the mark of every step (document 01, "Recipe text", "Turning text down" and "Sheet and run on paper";
// document 02, W-203).
#![tactic(auto)]

ghost use Rattle.std.specs.Prelude.{◌≡◌, List, [], ◌*◌, ◌/◌, ◌≤◌, length};
ghost use Rattle.recipe.specs.declared.Step.{Step};
ghost use Rattle.recipe.specs.Packed.{steps_of};
ghost use Rattle.recipe.specs.Answer.{Holds};
ghost use Rattle.semantics.specs.Shown.{sheet_line, sheet_steps, sheet_of, answer_of, bytes_of};
ghost use Rattle.sheets.specs.Answer.{answered};
ghost use Rattle.sheets.specs.Packed.{carried_sheet, sheet_words};

use calls::Refused;
use marks::step_mark;
use ranges::bounds::step_range;
use ranges::{Range, WholeRange};
use reader::read;
use recipe::{MOST_STEPS, MOST_WORDS, StepNumber};
use semantics::{SHEET_LINE, SheetAnswer};
use sheet_line::write_line;
use steps::Steps;
use values::place_of;

// What C is told of a sheet, which shows so many steps or is refused.
fn answer(sheet: Result<usize, Refused>) -> SheetAnswer
    ensures { result ≡ answered sheet }
{
    match sheet {
        Ok(steps) => SheetAnswer {
            refusal: 0,
            place: 0,
            steps: steps as u64,
        },
        Err(why) => SheetAnswer::from(why),
    }
}

// The sheet of the steps; writes its lines only after the last has its range.
fn write_sheet(steps: Steps, bytes: &mut [u8]) -> Result<usize, Refused>
    requires { length steps.words.now / 3 * sheet_line ≤ length bytes.old }
    ensures { (answered result ≡ answer_of (carried_sheet (steps_of steps.entry.words.now)))
        × (bytes.new ≡ bytes_of (carried_sheet (steps_of steps.entry.words.now)) bytes.old) }
{
    let n = steps.len();
    let mut ranges = [Range::Wholes(WholeRange { low: 0, high: 0 }); MOST_STEPS];
    let mut marks = [true; MOST_STEPS];
    for i in 0..n {
        let t = steps.at(i);
        let f = place_of(t.a, i);
        let g = place_of(t.b, i);
        let a = ranges[f];
        let b = ranges[g];
        let r = match step_range(t, a, b) {
            Ok(r) => r,
            Err(why) => return Err(Refused::Step(why, StepNumber(i as u16))),
        };
        let m = step_mark(t.opcode, r, marks[f], marks[g]);
        ranges[i] = r;
        marks[i] = m;
    }
    for j in 0..n {
        let r = ranges[j];
        let at = j * SHEET_LINE;
        write_line(j, marks[j], r, &mut bytes[at..at + SHEET_LINE]);
    }
    Ok(n)
}

// The sheet of a recipe's words.
fn sheet_on_words(steps: &[u64], bytes: &mut [u8]) -> Result<usize, Refused>
    ensures { (answered result ≡ answer_of (sheet_words steps.now (length bytes.old)))
        × (bytes.new ≡ bytes_of (sheet_words steps.now (length bytes.old)) bytes.old) }
{
    let Some(recipe) = Steps::new(steps) else {
        return Err(Refused::Words);
    };
    let n = recipe.len();
    if bytes.len() < n * SHEET_LINE {
        return Err(Refused::Room);
    }
    write_sheet(recipe, bytes)
}

// Writes the sheet of a recipe that was read, 39 bytes a step, and answers the number of steps. The rest of the bytes stays as lent, and so
// does all of it where the sheet is refused. `steps` has the recipe's steps, three words each, as the reader put them.
//
// Refuses, in this order: 40 where there are fewer bytes than 39 a step, at place 0; then the first step's 20 to 22 as stated for the sheet,
// at that step. Before these, of words that the reader gave for no text: 10 where they are not three each for 1 to 128 steps, at place 0.
//
// The first part of the contract speaks of any words; the second of those of formed steps, of which no range has an end that is a NaN, so
// that floats carry the ends as they are.
pub fn sheet_recipe(steps: &[u64], bytes: &mut [u8]) -> SheetAnswer
    ensures value { (result ≡ answer_of (sheet_words steps.now (length bytes.old)))
        × (bytes.new ≡ bytes_of (sheet_words steps.now (length bytes.old)) bytes.old) }
    ensures of_steps { (l : List Step) → Holds l steps.now →
        (result ≡ answer_of (sheet_steps l (length bytes.old)))
        × (bytes.new ≡ bytes_of (sheet_steps l (length bytes.old)) bytes.old) }
{
    answer(sheet_on_words(steps, bytes))
}

// The sheet of a recipe's text.
fn sheet_on_text(text: &[u8], bytes: &mut [u8]) -> Result<usize, Refused>
    ensures { (answered result ≡ answer_of (sheet_of text.now (length bytes.old)))
        × (bytes.new ≡ bytes_of (sheet_of text.now (length bytes.old)) bytes.old) }
{
    let mut steps = [0u64; MOST_WORDS];
    let n = read(text, &mut steps)?;
    let size = 3 * n;
    sheet_on_words(&steps[..size], bytes)
}

// The same of a recipe's text. Refuses 10 to 17 as the reader does, before all others.
pub fn sheet(text: &[u8], bytes: &mut [u8]) -> SheetAnswer
    ensures { (result ≡ answer_of (sheet_of text.now (length bytes.old)))
        × (bytes.new ≡ bytes_of (sheet_of text.now (length bytes.old)) bytes.old) }
{
    answer(sheet_on_text(text, bytes))
}
