// The whole mark of a step (document 02, W-203; W-204 for step 24, W-208 for 40 to 42).
#![tactic(auto)]

ghost use Rattle.std.specs.Prelude.{◌≡◌, ◌&&◌};
ghost use Rattle.float_format.specs.Format.{binary64};
ghost use Rattle.float_format.specs.Number.{is_integral};
ghost use Rattle.semantics.specs.Range.{doubles};
ghost use Rattle.semantics.specs.Mark.{is_whole, one_number, mark_rule};
ghost use Rattle.ranges.specs.Seen.{seen_range};

use float_format::width::{infinity_of, rest};
use ranges::{Ends, Range};
use rounding::trunc;
use steps::order::double_above;

// Whether a pattern's number is finite and has no fraction.
fn is_integral(x: u64) -> bool
    ensures { result ≡ is_integral binary64 x }
{
    if rest::<u64>(x) >= infinity_of::<u64>() {
        return false;
    }
    trunc(x) == x
}

// Whether a range holds one number, finite and without a fraction.
fn one_integral(r: Ends) -> bool
    ensures { result ≡ (one_number (doubles r.low r.high) && is_integral binary64 r.low) }
{
    if double_above(r.high, r.low) {
        return false;
    }
    is_integral(r.low)
}

fn is_whole(r: Range) -> bool
    ensures { result ≡ is_whole (seen_range r) }
{
    matches!(r, Range::Wholes(_))
}

// The mark of a step, by its opcode, its own range and its operands' marks.
#[tactic(auto, unfolding(semantics::specs::Mark::mark_rule))]
pub fn step_mark(opcode: u8, r: Range, a: bool, b: bool) -> bool
    ensures { result ≡ mark_rule opcode (seen_range r) a b }
{
    if is_whole(r) {
        return true;
    }
    let ends = r.ends();
    match opcode {
        0x32 => true,
        0x01 | 0x03 => one_integral(ends),
        0x10..=0x14 => !ends.has_infinite_end(),
        0x16..=0x17 => a,
        0x20..=0x22 | 0x24 | 0x40..=0x42 => a & b,
        _ => false,
    }
}
