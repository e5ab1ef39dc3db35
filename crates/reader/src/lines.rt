// One line of a recipe's text: five fields of digits and a line feed.
ghost use Rattle.std.specs.Prelude.{◌≡◌, ◌≤◌, length};
ghost use Rattle.recipe.specs.Text.{short, line_length, line_at};
ghost use Rattle.reader.specs.Checks.{told};

use recipe::{Step, StepNumber};

// The step of the line of the bytes s; None where the line is not well formed (check 11).
pub(crate) fn line_of(s: &[u8]) -> Option<Step>
    requires { line_length short ≤ length s.now }
    ensures { result ≡ told (line_at short s.now 0) }
{
    let opcode = hexadecimal::read(&s[0..2])?;
    let a = hexadecimal::read(&s[2..4])?;
    let b = hexadecimal::read(&s[4..6])?;
    let p = hexadecimal::read(&s[6..22])?;
    let q = hexadecimal::read(&s[22..38])?;
    if s[38] != b'\n' {
        return None;
    }
    Some(Step {
        opcode: opcode as u8,
        a: StepNumber(a as u16),
        b: StepNumber(b as u16),
        p,
        q,
    })
}
