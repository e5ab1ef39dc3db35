// Choosing by the order of numbers, and stepping along it: fmin, fmax, nextafter, generic over the width.
//
// Every size is worked out from the two that a `Pattern` has, so that the compiler folds them. Numbers are compared as whole numbers, by
// their patterns in fmin and fmax and by their ranks in nextafter: a comparison of floats would give other answers where the host takes
// subnormals for zeros. What is rare is a branch (NaNs, and in nextafter zeros and equal operands); the rest are selects, since a branch on
// which of two numbers is smaller costs more than it saves. fmin and fmax take -0 as below +0; in nextafter the two are equal.
#![tactic(auto)]

ghost use Rattle.std.specs.Prelude.{◌≡◌, ◌*◌, ◌<◌};
ghost use Rattle.float_format.specs.Format.{sign_bit};
ghost use Rattle.float_format.specs.Refusals.{refusal_number};
ghost use Rattle.ordering.specs.Ordering.{earlier, later, past_nans, fmin, fmax, nextafter, nextafter_refusal};
ghost use Rattle.ordering.specs.Shape.{Operands, Nonzero, moved, refusal};

use float_format::width::{infinity_of, quiet, rank, rest, sign_bit, signed_zero};
use float_format::{Pattern, Refusal, Word};

// ---- fmin, fmax

// The one of x and y that comes first: the lesser number, and of two zeros -0. Where neither has a minus sign, the lesser pattern is
// the lesser number; where one has, or both have, the greater pattern is.
fn earlier<P: Pattern>(x: u64, y: u64) -> u64
    requires { Operands P.format x y }
    ensures { (result ≡ earlier P.format x y) × (result < 2 * sign_bit P.format) }
{
    let sign = sign_bit::<P>();
    let low = x.min(y);
    let high = x.max(y);
    if high < sign { low } else { high }
}

// The other of the two: the greater number, and of two zeros +0.
fn later<P: Pattern>(x: u64, y: u64) -> u64
    requires { Operands P.format x y }
    ensures { (result ≡ later P.format x y) × (result < 2 * sign_bit P.format) }
{
    let sign = sign_bit::<P>();
    let low = x.min(y);
    let high = x.max(y);
    if high < sign { high } else { low }
}

// `word` where x and y are numbers; one NaN gives the other operand, two give the first quieted.
fn past_nans<P: Pattern>(x: u64, y: u64, word: u64) -> u64
    requires { Operands P.format x y × (word < 2 * sign_bit P.format) }
    ensures { (result ≡ past_nans P.format x y word) × (result < 2 * sign_bit P.format) }
{
    let top = infinity_of::<P>();
    let a = rest::<P>(x);
    let b = rest::<P>(y);
    if a > top {
        if b > top {
            return quiet::<P>(x);
        }
        return y;
    }
    if b > top {
        return x;
    }
    word
}

// The smaller of x and y, bit for bit.
//
// Special cases are: of two zeros -0 where either is -0; one NaN gives the other operand; two NaNs give x quieted.
pub fn fmin<P: Pattern>(x: P, y: P) -> P
    ensures { P.bits result ≡ fmin P.format (P.bits x) (P.bits y) }
{
    let a = x.to_word();
    let b = y.to_word();
    P::from_word(past_nans::<P>(a, b, earlier::<P>(a, b)))
}

// The larger of x and y, bit for bit.
//
// Special cases are: of two zeros +0 where either is +0; one NaN gives the other operand; two NaNs give x quieted.
pub fn fmax<P: Pattern>(x: P, y: P) -> P
    ensures { P.bits result ≡ fmax P.format (P.bits x) (P.bits y) }
{
    let a = x.to_word();
    let b = y.to_word();
    P::from_word(past_nans::<P>(a, b, later::<P>(a, b)))
}

// ---- nextafter

// The pattern beside x, whose number is not zero: the next number up, or down. Away from zero the pattern grows by one, whatever the
// sign, and the carry out of the fraction is the step to the next exponent.
fn step<P: Pattern>(up: bool, x: u64) -> u64
    requires { Nonzero P.format x }
    ensures { result ≡ moved P.format up x }
{
    let grown = x + 1;
    let shrunk = x - 1;
    let above = if up { grown } else { shrunk };
    let below = if up { shrunk } else { grown };
    if x < sign_bit::<P>() { above } else { below }
}

// The neighbour of x towards y, as a pattern.
fn neighbour<P: Pattern>(x: u64, y: u64) -> u64
    requires { Operands P.format x y }
    ensures { (result ≡ nextafter P.format x y) × (result < 2 * sign_bit P.format) }
{
    let top = infinity_of::<P>();
    let a = rest::<P>(x);
    if a > top {
        return quiet::<P>(x);
    }
    if rest::<P>(y) > top {
        return quiet::<P>(y);
    }
    let from = rank::<P>(x);
    let to = rank::<P>(y);
    if from == to {
        return y;
    }
    if a == 0 {
        return signed_zero::<P>(y) + 1;
    }
    step::<P>(from < to, x)
}

// Out of range where x is finite and the word infinite.
fn refusal_of<P: Pattern>(x: u64, word: u64) -> Option<Refusal>
    ensures { refusal_number result ≡ refusal P.format x word }
{
    let top = infinity_of::<P>();
    if rest::<P>(word) != top {
        return None;
    }
    if rest::<P>(x) < top {
        Some(Refusal::OutOfRange)
    } else {
        None
    }
}

// The next number after x in the direction of y.
//
// Special cases are: the first NaN quieted; equal operands give y; from zero the smallest subnormal of y's sign; a zero reached from a
// subnormal has x's sign.
//
// Refuses as out of range where x is finite and the answer infinite: the infinity of x's sign.
pub fn nextafter<P: Pattern>(x: P, y: P) -> Word<P>
    ensures { (P.bits result.word ≡ nextafter P.format (P.bits x) (P.bits y)) × (refusal_number result.refusal ≡ nextafter_refusal P.format (P.bits x) (P.bits y)) }
{
    let from = x.to_word();
    let word = neighbour::<P>(from, y.to_word());
    Word {
        word: P::from_word(word),
        refusal: refusal_of::<P>(from, word),
    }
}
