// The sheet program's work.
ghost use Rattle.std.specs.Prelude.{◌≡◌, ◌≤◌, length, take};
ghost use Rattle.semantics.specs.Shown.{longest_sheet};
ghost use Rattle.programs.specs.Sheet.{sheet_output};
ghost use Rattle.programs.specs.Stage.{Untouched};

use super::answer::refusal_line;
use semantics::SHEET_LINE;
use sheets::sheet;

// Writes a recipe's sheet at the start of out, or its refusal line, and answers how many bytes that is.
pub fn write_sheet(text: &[u8], out: &mut [u8]) -> usize
    requires { longest_sheet ≤ length out.old }
    ensures { (result ≤ longest_sheet) × (take result out.new ≡ sheet_output text.now)
        × Untouched result out.old out.new }
{
    let a = sheet(text, out);
    if a.refusal != 0 {
        return refusal_line(a.refusal, a.place, out);
    }
    a.steps as usize * SHEET_LINE
}
