// The explain program's work.
ghost use Rattle.std.specs.Prelude.{◌≤◌, length};
ghost use Rattle.programs.specs.Explain.{passed_line, explain_output};
ghost use Rattle.programs.specs.Stage.{Put};

use super::answer::{fields_line, refusal_line};
use explaining::explain;

// Writes the line of a recipe whose sheet passes, and answers its length.
fn passed_line(out: &mut [u8]) -> usize
    requires { 19 ≤ length out.old }
    ensures { Put passed_line result out.old out.new }
{
    hexadecimal::write(0, &mut out[..2]);
    out[2] = b'\n';
    3
}

// Writes the line that explains a recipe at the start of out, and answers its length: 00; or step, operand's step and reason; or the refusal
// line of a text that is refused.
pub fn write_explanation(text: &[u8], out: &mut [u8]) -> usize
    requires { 19 ≤ length out.old }
    ensures { Put (explain_output text.now) result out.old out.new }
{
    let a = explain(text);
    if a.refusal != 0 {
        return refusal_line(a.refusal, a.place, out);
    }
    if a.reason != 0 {
        return fields_line(a.step, a.operand, a.reason, out);
    }
    passed_line(out)
}
