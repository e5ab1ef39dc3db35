// A line of a sheet (document 01, "Sheet and run on paper"; document 02, W-203).
#![tactic(auto)]

ghost use Rattle.std.specs.Prelude.{◌≡◌, ◌+◌, ◌*◌, ◌<◌, length};
ghost use Rattle.recipe.specs.Table.{kind_number};
ghost use Rattle.recipe.specs.Text.{most_steps};
ghost use Rattle.semantics.specs.Range.{kind_of};
ghost use Rattle.semantics.specs.Shown.{sheet_line, mark_number, line_of};
ghost use Rattle.ranges.specs.Seen.{seen_range};

use ranges::Range;
use steps::table::kind_number;

// Step, kind and mark as one number, so that their two digits each are written together.
fn line_head(step: usize, mark: bool, r: Range) -> u64
    requires { step < most_steps }
    ensures { result ≡ step * 0x1_0000 + kind_number (kind_of (seen_range r)) * 0x100 + mark_number mark }
{
    let kind = u64::from(kind_number(r.kind()));
    step as u64 * 0x1_0000 + kind * 0x100 + u64::from(mark)
}

// Fills a line: step 2 digits, kind 2, mark 2, low 16, high 16, a line feed.
pub fn write_line(step: usize, mark: bool, r: Range, line: &mut [u8])
    requires { (length line.old ≡ sheet_line) × (step < most_steps) }
    ensures { line.new ≡ line_of step mark (seen_range r) }
{
    hexadecimal::write(line_head(step, mark, r), &mut line[..6]);
    hexadecimal::write(r.low_word(), &mut line[6..22]);
    hexadecimal::write(r.high_word(), &mut line[22..38]);
    line[38] = b'\n';
}
