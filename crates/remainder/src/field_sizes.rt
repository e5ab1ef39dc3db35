// The pieces that the remainder and the nearest one share, from a format's field sizes as numbers. Not entry points: each asks that a pattern
// fits a word, or that its significand does.
ghost use Rattle.std.specs.Prelude.{◌≡◌, true, ◌-◌, ◌*◌, ◌^◌, ◌<◌};
ghost use Rattle.float_format.specs.Format.{sign_bit, default_nan};
ghost use Rattle.float_format.specs.Width.{format, InWord};
ghost use Rattle.float_format.specs.Refusals.{refusal_number};
ghost use Rattle.remainder.specs.Remainder.{fmod, fmod_refusal};
ghost use Rattle.remainder.specs.Shape.{scale_of, is_special};

use float_format::field_sizes::{infinity_of, quiet, rest};
use float_format::width::power;
use float_format::{Refusal, Word};

// One less than the exponent field of a, a pattern without its sign, and 0 where that is 0.
pub fn scale(fraction: u64, a: u64) -> u64
    requires { fraction < 64 }
    ensures { result ≡ scale_of fraction a }
{
    (a >> fraction).saturating_sub(1)
}

// a stands for that number of units, times 2^scale: with no case for a subnormal, whose scale is 0.
pub fn significand(fraction: u64, a: u64) -> u64
    requires { fraction < 62 }
    ensures { result ≡ a - scale_of fraction a * 2 ^ fraction }
{
    a - scale(fraction, a) * power(fraction)
}

// Whether an operand is not finite, or y is zero.
pub fn special(fraction: u64, exponent: u64, x: u64, y: u64) -> bool
    requires { InWord (format fraction exponent) }
    ensures { result ≡ is_special (format fraction exponent) x y }
{
    let infinity = infinity_of(fraction, exponent);
    let a = rest(fraction, exponent, x);
    let b = rest(fraction, exponent, y);
    a >= infinity || b >= infinity || b == 0
}

// What is answered there: the first NaN quieted, refusal 2 with the default NaN, or x where only y is infinite. `nan` is that default NaN,
// which each width has as a constant.
pub fn special_answer(fraction: u64, exponent: u64, nan: u64, x: u64, y: u64) -> Word<u64>
    requires { InWord (format fraction exponent) × (x < 2 * sign_bit (format fraction exponent)) × (y < 2 * sign_bit (format fraction exponent)) × (is_special (format fraction exponent) x y ≡ true) × (nan ≡ default_nan (format fraction exponent)) }
    ensures { (result.word ≡ fmod (format fraction exponent) x y) × (refusal_number result.refusal ≡ fmod_refusal (format fraction exponent) x y) × (result.word < 2 * sign_bit (format fraction exponent)) }
{
    let infinity = infinity_of(fraction, exponent);
    let a = rest(fraction, exponent, x);
    let b = rest(fraction, exponent, y);
    if a > infinity {
        return Word::of(quiet(fraction, exponent, x));
    }
    if b > infinity {
        return Word::of(quiet(fraction, exponent, y));
    }
    if a == infinity || b == 0 {
        return Word {
            word: nan,
            refusal: Some(Refusal::Undefined),
        };
    }
    Word::of(x)
}
