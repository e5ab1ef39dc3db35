// Lines of output: a refusal's, and the answer to a frame.
ghost use Rattle.std.specs.Prelude.{◌≡◌, List, ◌≤◌, length, take};
ghost use Rattle.recipe.specs.declared.Step.{Step};
ghost use Rattle.recipe.specs.Answer.{Holds};
ghost use Rattle.programs.specs.Output.{refusal_line, answer_line, frame_line};
ghost use Rattle.programs.specs.Explain.{fields_line};
ghost use Rattle.programs.specs.Stage.{Untouched, Put};

use recipe::MOST_STEPS;
use running::run_recipe;
use semantics::RunAnswer;

// The bytes of the longest line, with its line feed.
pub const LINE: usize = 19;

// Writes a line of three fields, 2 digits each, at the start of out, and answers its length.
pub(crate) fn fields_line(x: u64, y: u64, z: u64, out: &mut [u8]) -> usize
    requires { 19 ≤ length out.old }
    ensures { Put (fields_line x y z) result out.old out.new }
{
    hexadecimal::write(x, &mut out[..2]);
    hexadecimal::write(y, &mut out[2..4]);
    hexadecimal::write(z, &mut out[4..6]);
    out[6] = b'\n';
    7
}

// The same of a refusal.
pub fn refusal_line(number: u64, place: u64, out: &mut [u8]) -> usize
    requires { 19 ≤ length out.old }
    ensures { Put (refusal_line number place) result out.old out.new }
{
    fields_line(0xff, number, place, out)
}

// The same of a run's answer: kind and word, or a refusal line.
fn answer_line(a: RunAnswer, out: &mut [u8]) -> usize
    requires { 19 ≤ length out.old }
    ensures { Put (answer_line a) result out.old out.new }
{
    if a.refusal != 0 {
        return refusal_line(a.refusal, a.place, out);
    }
    hexadecimal::write(a.kind, &mut out[..2]);
    hexadecimal::write(a.word, &mut out[2..18]);
    out[18] = b'\n';
    LINE
}

// The same of a frame line, its line feed left out, for the steps in these words. Refuses 30 where it is longer than the longest frame.
pub fn frame_line(steps: &[u64], line: &[u8], out: &mut [u8]) -> usize
    requires { 19 ≤ length out.old }
    ensures { (result ≤ 19) × (
        (l : List Step) → Holds l steps.now → take result out.new ≡ frame_line l line.now)
        × Untouched result out.old out.new }
{
    if line.len() > 256 {
        return refusal_line(30, 0, out);
    }
    let mut words = [0u64; MOST_STEPS];
    let a = run_recipe(steps, line, &mut words);
    answer_line(a, out)
}
