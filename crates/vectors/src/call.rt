// The call that a case asks for, by its function's number and its width.
ghost use Rattle.std.specs.Prelude.{◌≡◌};
ghost use Rattle.float_format.specs.Format.{binary32, binary64};
ghost use Rattle.vectors.specs.Answer.{nearest_at, further_at, answer_at, single_at, half_at, answer_of};

use crate::answer::Answer;
use crate::case::Case;
use float_format::{Pattern, Wide};
use rounding::Nearest;
use twos_complement::signed;

// What the function of a case answers. The operands are taken modulo the width.
pub(crate) fn answer(case: Case) -> Answer
    ensures { result ≡ answer_of case }
{
    let n = signed(case.y);
    let width = case.width;
    match width {
        64 => answer_at(case.function, case.x, case.y, n),
        32 => single(
            case.function,
            (case.x % 0x1_0000_0000) as u32,
            (case.y % 0x1_0000_0000) as u32,
            n,
        ),
        16 => half(case.function, (case.x % 0x1_0000) as u16),
        _ => Answer::unknown(),
    }
}

// At a width that has all functions; n is the second operand as a number.
fn answer_at<P: Wide + Nearest>(function: u64, x: P, y: P, n: i64) -> Answer
    ensures { result ≡ answer_at P.format function (P.bits x) (P.bits y) n }
{
    match function {
        0x10 => Answer::pattern(rounding::floor(x)),
        0x11 => Answer::pattern(rounding::ceil(x)),
        0x12 => Answer::pattern(rounding::trunc(x)),
        0x13 => Answer::pattern(rounding::round(x)),
        0x14 => Answer::pattern(rounding::nearbyint(x)),
        0x16 => Answer::pattern(x.fabs()),
        0x17 => Answer::pattern(x.negate()),
        0x18 => Answer::from(rounding::lround(x)),
        0x19 => Answer::from(x.classify()),
        _ => further_at(function, x, y, n),
    }
}

// The functions of two operands, and those of two words.
fn further_at<P: Wide>(function: u64, x: P, y: P, n: i64) -> Answer
    ensures { result ≡ further_at P.format function (P.bits x) (P.bits y) n }
{
    match function {
        0x15 => Answer::from(splitting::modf_patterns(x)),
        0x20 => Answer::pattern(ordering::fmin(x, y)),
        0x21 => Answer::pattern(ordering::fmax(x, y)),
        0x22 => Answer::from(remainder::fmod(x, y)),
        0x23 => Answer::from(scaling::ldexp(x, n)),
        0x24 => Answer::from(ordering::nextafter(x, y)),
        0x25 => Answer::from(scaling::frexp(x)),
        _ => nearest_at(function, x, y),
    }
}

// The nearest remainders.
fn nearest_at<P: Wide>(function: u64, x: P, y: P) -> Answer
    ensures { result ≡ nearest_at P.format function (P.bits x) (P.bits y) }
{
    match function {
        0x26 => Answer::from(nearest_remainder::remainder(x, y)),
        0x27 => Answer::from(nearest_remainder::remquo(x, y)),
        _ => Answer::unknown(),
    }
}

// Of an f32 also its export to a half.
fn single(function: u64, x: u32, y: u32, n: i64) -> Answer
    ensures { result ≡ single_at function x y n }
{
    match function {
        0x1b => Answer::from(conversion::export(x)),
        _ => answer_at(function, x, y, n),
    }
}

// Of a half the five roundings, and its import.
fn half(function: u64, x: u16) -> Answer
    ensures { result ≡ half_at function x }
{
    match function {
        0x10 => Answer::pattern(rounding::floor(x)),
        0x11 => Answer::pattern(rounding::ceil(x)),
        0x12 => Answer::pattern(rounding::trunc(x)),
        0x13 => Answer::pattern(rounding::round(x)),
        0x14 => Answer::pattern(rounding::nearbyint(x)),
        0x1a => Answer::pattern(conversion::import(x)),
        _ => Answer::unknown(),
    }
}
