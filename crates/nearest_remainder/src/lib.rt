// The nearest remainder of patterns, remainder and remquo.
//
// A cut division, as fmod's, leaves a rest and the last three binary digits of its quotient. Where the rest is more than half of the divisor, or
// half of it and the quotient odd, the quotient goes on by one, and what is left is what the rest lacks to the divisor, with the other sign. Where
// the exponents lie close, one division of words does; beyond, the power of two between them is worked out modulo eight times the divisor, in as
// many turns as its exponent has digits. The pieces are small and generic over the width, so that the compiler folds the sizes.
#![tactic(auto)]

ghost use Rattle.std.specs.Prelude.{◌≡◌, true, cond, ◌+◌, ◌-◌, ◌*◌, ◌/◌, ◌%◌, ◌^◌, ◌<◌, ◌≤◌, ltb};
ghost use Rattle.std.specs.Float.Ieee.{unlike};
ghost use Rattle.float_format.specs.Format.{sign_bit, negative, unsigned};
ghost use Rattle.float_format.specs.Refusals.{refusal_number};
ghost use Rattle.float_format.specs.Rounding.{with_sign};
ghost use Rattle.remainder.specs.Remainder.{fmod_refusal};
ghost use Rattle.remainder.specs.Shape.{Ordinary, scale_of};
ghost use Rattle.nearest_remainder.specs.Nearest.{remainder, remquo_quotient};
ghost use Rattle.nearest_remainder.specs.Shape.{Answered, Close, Divided, Magnitudes};

use float_format::width::{encoded, field, rest, sign_bit, signed_zero, top_field, unit};
use float_format::{Pattern, Refusal, Wide, Word};
use modular::scaled_remainder;
use remainder::{scale, significand, special, special_answer};

// What remquo answers: a pattern, the quotient with its sign, and the refusal.
#[derive(Clone, Copy)]
pub struct WithQuotient<P> {
    pub word: P,
    pub quotient: i32,
    pub refusal: Option<Refusal>,
}

impl<P: Copy> WithQuotient<P> {
    // The number of the refusal, 0 where there is none.
    pub fn number(self) -> u64
        ensures { result ≡ refusal_number self.refusal }
    {
        let answer = Word {
            word: self.word,
            refusal: self.refusal,
        };
        answer.number()
    }
}

// The remainder x - n * y exactly, n being the integer nearest to x / y, halves to even. A zero has x's sign.
//
// Special cases are: the first NaN quieted; x where x is finite and y infinite.
//
// Refuses 2 where x is infinite or y is zero, and neither is NaN: default NaN.
#[inline(always)]
pub fn remainder<P: Wide>(x: P, y: P) -> Word<P>
    ensures { (P.bits result.word ≡ remainder P.format (P.bits x) (P.bits y)) × (refusal_number result.refusal ≡ fmod_refusal P.format (P.bits x) (P.bits y)) }
{
    let answer = of_words::<P>(x.to_word(), y.to_word());
    Word {
        word: P::from_word(answer.word),
        refusal: answer.refusal,
    }
}

// The same, and the quotient: the sign of x / y on the magnitude of n modulo 8. It is 0 with a NaN, for an infinite y, and where it is refused.
//
// Refuses 2 where x is infinite or y is zero, and neither is NaN: default NaN.
pub fn remquo<P: Wide>(x: P, y: P) -> WithQuotient<P>
    ensures { (P.bits result.word ≡ remainder P.format (P.bits x) (P.bits y)) × (result.quotient ≡ remquo_quotient P.format (P.bits x) (P.bits y)) × (refusal_number result.refusal ≡ fmod_refusal P.format (P.bits x) (P.bits y)) }
{
    let a = x.to_word();
    let b = y.to_word();
    let negative = unlike_signs::<P>(a, b);
    let answer = of_words::<P>(a, b);
    WithQuotient {
        word: P::from_word(answer.word),
        quotient: with_sign(negative, answer.quotient),
        refusal: answer.refusal,
    }
}

// ---- a cut division of significands

// A quotient, and what is left.
#[derive(Drop)]
struct Cut {
    quotient: u64,
    rest: u64,
}

impl Cut {
    // One binary digit of the quotient, which counts `times`.
    fn digit(self, times: u64, w: u64) -> Cut
        requires { (self.rest < 2 * (times * w)) × (self.quotient < 8) × (times ≤ 4) × (w < 2 ^ 53) }
        ensures { (result.quotient * w + result.rest ≡ self.quotient * w + self.rest) × (result.rest < times * w) × (result.quotient ≤ self.quotient + times) }
    {
        let part = times * w;
        if self.rest >= part {
            Cut {
                quotient: self.quotient + times,
                rest: self.rest - part,
            }
        } else {
            self
        }
    }
}

// m * 2^n by w, where m * 2^n fits a word.
fn short_division<P: Wide>(m: u64, n: u64, w: u64) -> Cut
    requires { (m < 2 * 2 ^ P.format.fraction) × (n ≤ 63 - P.format.fraction) × (0 < w) }
    ensures { (result.quotient ≡ m * 2 ^ n / w) × (result.rest ≡ m * 2 ^ n % w) }
{
    let moved = m << n;
    Cut {
        quotient: moved / w,
        rest: moved % w,
    }
}

// r by w, for a quotient of three digits.
fn last_digits(r: u64, w: u64) -> Cut
    requires { (r < 8 * w) × (w < 2 ^ 53) }
    ensures { (result.quotient ≡ r / w) × (result.rest ≡ r % w) }
{
    let none = Cut {
        quotient: 0,
        rest: r,
    };
    none.digit(4, w).digit(2, w).digit(1, w)
}

// m * 2^n by w: the quotient modulo 8, and what is left.
fn cut_division<P: Wide>(m: u64, n: u64, w: u64) -> Cut
    requires { (m < 2 * 2 ^ P.format.fraction) × (n < 2 ^ 63) × (0 < w) × (w < 2 * 2 ^ P.format.fraction) }
    ensures { (result.quotient % 8 ≡ m * 2 ^ n / w % 8) × (result.rest ≡ m * 2 ^ n % w) }
{
    if n <= 63 - P::fraction_bits() {
        return short_division::<P>(m, n, w);
    }
    last_digits(scaled_remainder(m, n, w), w)
}

// ---- of magnitudes, patterns without their signs

// The quotient modulo 8 and what is left, in units of 2^scale, of which the divisor has as many as it says.
#[derive(Clone, Copy)]
struct Division {
    quotient: u64,
    rest: u64,
    divisor: u64,
    scale: u64,
}

impl Division {
    // Whether the nearest quotient is the next one: past the half, or at it and odd.
    fn goes_on(self) -> bool
        requires { self.rest < 2 ^ 62 }
        ensures { result ≡ ltb self.divisor (2 * self.rest + self.quotient % 2) }
    {
        2 * self.rest + self.quotient % 2 > self.divisor
    }
}

// Of a below b, their scales at most one apart, nothing is divided: in units of a's scale b fits a word.
fn smaller<P: Wide>(a: u64, b: u64) -> Division
    requires { Magnitudes P.format a b × (a < b) × (scale_of P.format.fraction b ≤ scale_of P.format.fraction a + 1) }
    ensures { Divided P.format a b result.quotient result.rest result.divisor result.scale }
{
    let i = scale::<P>(a);
    let above = scale::<P>(b) - i;
    Division {
        quotient: 0,
        rest: significand::<P>(a),
        divisor: significand::<P>(b) << above,
        scale: i,
    }
}

// In units of b's scale.
#[inline(always)]
fn at_scale<P: Wide>(a: u64, b: u64) -> Division
    requires { Magnitudes P.format a b × (b ≤ a) }
    ensures { Divided P.format a b result.quotient result.rest result.divisor result.scale }
{
    let j = scale::<P>(b);
    let w = significand::<P>(b);
    let n = scale::<P>(a) - j;
    let cut = cut_division::<P>(significand::<P>(a), n, w);
    Division {
        quotient: cut.quotient % 8,
        rest: cut.rest,
        divisor: w,
        scale: j,
    }
}

// Any a and b but those with a's scale two or more below b's.
#[inline(always)]
fn divide<P: Wide>(a: u64, b: u64) -> Division
    requires { Magnitudes P.format a b × (scale_of P.format.fraction b ≤ scale_of P.format.fraction a + 1) }
    ensures { Divided P.format a b result.quotient result.rest result.divisor result.scale }
{
    if a < b {
        return smaller::<P>(a, b);
    }
    at_scale::<P>(a, b)
}

// ---- normal numbers whose exponents lie close

// Whether x and y are such: what most calls ask for, by one look at the exponent fields.
fn close<P: Wide>(x: u64, y: u64) -> bool
    ensures { result ≡ true → Close P.format x y }
{
    let i = field::<P>(x);
    let j = field::<P>(y);
    if j == 0 {
        return false;
    }
    if i < j {
        return false;
    }
    if i - j > 63 - P::fraction_bits() {
        return false;
    }
    i < top_field::<P>()
}

// The significand of a normal number.
fn normal_significand<P: Wide>(x: u64) -> u64
    ensures { result ≡ x % 2 ^ P.format.fraction + 2 ^ P.format.fraction }
{
    x % unit::<P>() + unit::<P>()
}

// In units of y's scale, without a look at what else x and y could be.
fn close_division<P: Wide>(x: u64, y: u64) -> Division
    requires { Close P.format x y }
    ensures { Divided P.format (unsigned P.format x) (unsigned P.format y) result.quotient result.rest result.divisor result.scale }
{
    let j = field::<P>(y);
    let n = field::<P>(x) - j;
    let w = normal_significand::<P>(y);
    let cut = short_division::<P>(normal_significand::<P>(x), n, w);
    Division {
        quotient: cut.quotient % 8,
        rest: cut.rest,
        divisor: w,
        scale: j - 1,
    }
}

// ---- the nearest quotient

// Both are worked out before the choice, so that it needs no branch.
fn chosen(test: bool, x: u64, y: u64) -> u64
    ensures { result ≡ cond test x y }
{
    if test { x } else { y }
}

// The remainder as a pattern, the quotient modulo 8 without its sign, and the refusal.
#[derive(Drop)]
struct Answer {
    word: u64,
    quotient: u64,
    refusal: Option<Refusal>,
}

// x less the nearest multiple of y, of which p is the cut division.
fn nearest<P: Pattern>(x: u64, y: u64, p: Division) -> Answer
    requires { Ordinary P.format x y × Divided P.format (unsigned P.format x) (unsigned P.format y) p.quotient p.rest p.divisor p.scale }
    ensures { Answered P.format x y result.word result.quotient (refusal_number result.refusal) }
{
    let on = p.goes_on();
    let left = chosen(on, p.divisor - p.rest, p.rest);
    let zero = signed_zero::<P>(x);
    let sign = chosen(on, sign_bit::<P>() - zero, zero);
    Answer {
        word: sign + encoded::<P>(left, p.scale),
        quotient: (p.quotient + chosen(on, 1, 0)) % 8,
        refusal: None,
    }
}

// The same for any x and y that have a remainder: x itself, where its scale is two or more below y's.
#[inline(always)]
fn ordinary<P: Wide>(x: u64, y: u64) -> Answer
    requires { Ordinary P.format x y }
    ensures { Answered P.format x y result.word result.quotient (refusal_number result.refusal) }
{
    let a = rest::<P>(x);
    let b = rest::<P>(y);
    if scale::<P>(a) + 1 < scale::<P>(b) {
        return Answer {
            word: x,
            quotient: 0,
            refusal: None,
        };
    }
    nearest::<P>(x, y, divide::<P>(a, b))
}

// And for any others: where there is nothing to divide, fmod's answer.
#[inline(always)]
fn any<P: Wide>(x: u64, y: u64) -> Answer
    requires { (x < 2 * sign_bit P.format) × (y < 2 * sign_bit P.format) }
    ensures { Answered P.format x y result.word result.quotient (refusal_number result.refusal) }
{
    if special::<P>(x, y) {
        let answer = special_answer::<P>(x, y);
        return Answer {
            word: answer.word,
            quotient: 0,
            refusal: answer.refusal,
        };
    }
    ordinary::<P>(x, y)
}

// What both answer: of the numbers that most calls ask for, by the short division.
#[inline(always)]
fn of_words<P: Wide>(x: u64, y: u64) -> Answer
    requires { (x < 2 * sign_bit P.format) × (y < 2 * sign_bit P.format) }
    ensures { Answered P.format x y result.word result.quotient (refusal_number result.refusal) }
{
    if close::<P>(x, y) {
        return nearest::<P>(x, y, close_division::<P>(x, y));
    }
    any::<P>(x, y)
}

// ---- the quotient's sign

// Whether x and y have two signs.
fn unlike_signs<P: Pattern>(x: u64, y: u64) -> bool
    requires { (x < 2 * sign_bit P.format) × (y < 2 * sign_bit P.format) }
    ensures { result ≡ unlike (negative P.format x) (negative P.format y) }
{
    signed_zero::<P>(x) != signed_zero::<P>(y)
}

// A quotient below 8, negated or not.
fn with_sign(negative: bool, n: u64) -> i32
    requires { n < 8 }
    ensures { result ≡ with_sign negative n }
{
    let z = n as i32;
    if negative { -z } else { z }
}
