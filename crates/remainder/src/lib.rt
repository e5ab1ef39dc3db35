// The remainder of patterns, fmod.
//
// A finite pattern stands for m * 2^i units, so the remainder is that of m * 2^(i - j) by y's significand, at y's scale j. It is taken
// eleven binary digits a turn: the leading digits of both numbers give an estimate of the quotient that is at most one too small, and
// one subtraction puts that right. Up to eleven digits one division of 32 bits does; beyond, a reciprocal is worked out once and each
// turn multiplies. The pieces are small and generic over the width, so that the compiler folds the sizes.
#![tactic(auto)]

ghost use Rattle.std.specs.Prelude.{◌≡◌, ◌+◌, ◌-◌, ◌*◌, ◌/◌, ◌%◌, ◌^◌, ◌<◌, ◌≤◌, ltb, true};
ghost use Rattle.float_format.specs.Format.{sign_bit, unsigned};
ghost use Rattle.float_format.specs.Refusals.{refusal_number};
ghost use Rattle.remainder.specs.Remainder.{fmod, fmod_refusal};
ghost use Rattle.remainder.specs.Shape.{Turn, Turns, top_of, inverse_of, scale_of, is_special, are_units, Ordinary, Left};

use float_format::width::{default_nan, encoded, normal_shift, rest, signed_zero, unit};
use float_format::{Pattern, Wide, Word};

pub mod field_sizes;

// The remainder x - n * y exactly, for the integer n that brings its magnitude below y's, with x's sign; a zero has it too.
//
// Special cases are: the first NaN quieted; x where x is finite and y infinite.
//
// Refuses 2 where x is infinite or y is zero, and neither is NaN: default NaN.
#[inline(always)]
pub fn fmod<P: Wide>(x: P, y: P) -> Word<P>
    ensures { (P.bits result.word ≡ fmod P.format (P.bits x) (P.bits y)) × (refusal_number result.refusal ≡ fmod_refusal P.format (P.bits x) (P.bits y)) }
{
    let answer = of_words::<P>(x.to_word(), y.to_word());
    Word {
        word: P::from_word(answer.word),
        refusal: answer.refusal,
    }
}

// The same of words.
fn of_words<P: Wide>(x: u64, y: u64) -> Word<u64>
    requires { (x < 2 * sign_bit P.format) × (y < 2 * sign_bit P.format) }
    ensures { (result.word ≡ fmod P.format x y) × (refusal_number result.refusal ≡ fmod_refusal P.format x y) × (result.word < 2 * sign_bit P.format) }
{
    if special::<P>(x, y) {
        return special_answer::<P>(x, y);
    }
    if are_units::<P>(x, y) {
        return Word::of(units_left::<P>(x, y));
    }
    if smaller::<P>(x, y) {
        return Word::of(x);
    }
    let left = remainder_at_scale::<P>(x, y);
    Word::of(with_remainder::<P>(x, y, left))
}

// ---- one turn

// n % d, from a quotient that is at most one too small.
fn corrected(n: u64, quotient: u64, d: u64) -> u64
    requires { (quotient * d ≤ n) × (n < quotient * d + 2 * d) }
    ensures { result ≡ n % d }
{
    let r = n - quotient * d;
    if r >= d { r - d } else { r }
}

// n without the digits that stand below a significand's leading 20.
fn leading<P: Wide>(n: u64) -> u64
    ensures { result ≡ n / 2 ^ (P.format.fraction - 19) }
{
    n >> (P::fraction_bits() - 19)
}

// The leading 20 bits of d, rounded up, so that what is divided by them is never too much.
fn top_of<P: Wide>(d: u64) -> u64
    requires { d < 2 * 2 ^ P.format.fraction }
    ensures { (result ≡ top_of P.format.fraction d) × (result ≤ 2 ^ 20) }
{
    leading::<P>(d) + 1
}

// r * 2^c % d, by a division of 32 bits.
fn turned<P: Wide>(r: u64, c: u64, d: u64) -> u64
    requires { Turn P.format.fraction r c d }
    ensures { result ≡ r * 2 ^ c % d }
{
    let n = r << c;
    let high = leading::<P>(n) as u32;
    let top = top_of::<P>(d) as u32;
    corrected(n, (high / top) as u64, d)
}

// r * 2^c % d, by the reciprocal of d's leading bits. That has 32 bits and the leading ones of n have 31, so the product fits a word.
fn turned_by<P: Wide>(r: u64, c: u64, d: u64, inverse: u64) -> u64
    requires { Turn P.format.fraction r c d × (inverse ≡ inverse_of P.format.fraction d) }
    ensures { result ≡ r * 2 ^ c % d }
{
    let n = r << c;
    let high = leading::<P>(n);
    corrected(n, (high * inverse) >> 51, d)
}

// ---- all turns

// m * 2^n % d, for many turns.
fn far<P: Wide>(m: u64, n: u64, d: u64) -> u64
    requires { Turns P.format.fraction m d }
    ensures { result ≡ m * 2 ^ n % d }
{
    let inverse = 0x0008_0000_0000_0000 / top_of::<P>(d);
    let mut r = m;
    for _ in 0..n / 11 {
        r = turned_by::<P>(r, 11, d, inverse);
    }
    turned_by::<P>(r, n % 11, d, inverse)
}

// m * 2^n % w for any w. A normal number's w, up to eleven digits, takes one turn. Every other way the divisor is brought to its leading
// one, which a subnormal's is not at: the whole division moves up with it, and its remainder back.
fn remainder_by<P: Wide>(m: u64, n: u64, w: u64) -> u64
    requires { (m < 2 * 2 ^ P.format.fraction) × (n < 2 ^ 63) × (0 < w) × (w < 2 * 2 ^ P.format.fraction) }
    ensures { result ≡ m * 2 ^ n % w }
{
    if n <= 11 && w >= unit::<P>() {
        return turned::<P>(m, n, w);
    }
    let k = normal_shift::<P>(w);
    far::<P>(m, n + k, w << k) >> k
}

// ---- patterns

// One less than the exponent field of a, a pattern without its sign, and 0 where that is 0.
pub fn scale<P: Pattern>(a: u64) -> u64
    ensures { result ≡ scale_of P.format.fraction a }
{
    field_sizes::scale(P::fraction_bits(), a)
}

// a stands for that number of units, times 2^scale: with no case for a subnormal, whose scale is 0.
pub fn significand<P: Pattern>(a: u64) -> u64
    ensures { result ≡ a - scale_of P.format.fraction a * 2 ^ P.format.fraction }
{
    field_sizes::significand(P::fraction_bits(), a)
}

// Whether an operand is not finite, or y is zero.
pub fn special<P: Pattern>(x: u64, y: u64) -> bool
    ensures { result ≡ is_special P.format x y }
{
    field_sizes::special(P::fraction_bits(), P::exponent_bits(), x, y)
}

// What is answered there: the first NaN quieted, refusal 2 with the default NaN, or x where only y is infinite.
pub fn special_answer<P: Pattern>(x: u64, y: u64) -> Word<u64>
    requires { (x < 2 * sign_bit P.format) × (y < 2 * sign_bit P.format) × (is_special P.format x y ≡ true) }
    ensures { (result.word ≡ fmod P.format x y) × (refusal_number result.refusal ≡ fmod_refusal P.format x y) × (result.word < 2 * sign_bit P.format) }
{
    let nan = default_nan::<P>();
    field_sizes::special_answer(P::fraction_bits(), P::exponent_bits(), nan, x, y)
}

// Whether both are subnormal or zero: their patterns without the signs are then their numbers of units.
fn are_units<P: Pattern>(x: u64, y: u64) -> bool
    ensures { result ≡ are_units P.format x y }
{
    let unit = unit::<P>();
    rest::<P>(x) < unit && rest::<P>(y) < unit
}

// What is left of such an x, with its sign. One division does: nothing has to be brought to a leading one, and the answer is x where
// that is the smaller.
fn units_left<P: Pattern>(x: u64, y: u64) -> u64
    requires { Ordinary P.format x y × (are_units P.format x y ≡ true) }
    ensures { (result ≡ fmod P.format x y) × (result < 2 * sign_bit P.format) }
{
    let left = rest::<P>(x) % rest::<P>(y);
    signed_zero::<P>(x) + left
}

// Whether x is the smaller in magnitude, which is its own remainder.
fn smaller<P: Pattern>(x: u64, y: u64) -> bool
    ensures { result ≡ ltb (unsigned P.format x) (unsigned P.format y) }
{
    rest::<P>(x) < rest::<P>(y)
}

// The remainder in units of y's scale.
fn remainder_at_scale<P: Wide>(x: u64, y: u64) -> u64
    requires { Ordinary P.format x y × (unsigned P.format y ≤ unsigned P.format x) }
    ensures { Left P.format x y result }
{
    let a = rest::<P>(x);
    let b = rest::<P>(y);
    let n = scale::<P>(a) - scale::<P>(b);
    remainder_by::<P>(significand::<P>(a), n, significand::<P>(b))
}

// It as a pattern, with x's sign.
fn with_remainder<P: Pattern>(x: u64, y: u64, left: u64) -> u64
    requires { Ordinary P.format x y × Left P.format x y left }
    ensures { (result ≡ fmod P.format x y) × (result < 2 * sign_bit P.format) }
{
    let j = scale::<P>(rest::<P>(y));
    signed_zero::<P>(x) + encoded::<P>(left, j)
}
