// For the tests and the benchmark alone, and no part of the C library: sums, differences and products in whole numbers, which is what the steps
// call, and by the language's own operations on floats. Both have one contract on finite numbers, so that they are the same function
// wherever the host's mode is the default one; in any other, only the first is what was proved. And fmod at a width of a caller's own.
#![tactic(auto)]

ghost use Rattle.std.specs.Prelude.{◌≡◌};
ghost use Rattle.float_format.specs.Format.{binary64, binary32, default_nan};
ghost use Rattle.arithmetic.specs.Arithmetic.{sum, difference, product};
ghost use Rattle.remainder.specs.Remainder.{fmod};
ghost use Rattle.cross_check.specs.Finite.{is_finite, both_finite, on_finite};

use float_format::width::{default_nan, infinity_of, rest};
use own_width::Single;

mod floats;
mod own_width;

fn is_finite(x: u64) -> bool
    ensures { result ≡ is_finite x }
{
    rest::<u64>(x) < infinity_of::<u64>()
}

fn both_finite(x: u64, y: u64) -> bool
    ensures { result ≡ both_finite x y }
{
    is_finite(x) && is_finite(y)
}

// ---- in whole numbers

#[unsafe(no_mangle)]
pub extern "C" fn ew_check_sum(x: u64, y: u64) -> u64
    ensures { result ≡ sum binary64 x y }
{
    integer_arithmetic::sum(x, y)
}

#[unsafe(no_mangle)]
pub extern "C" fn ew_check_difference(x: u64, y: u64) -> u64
    ensures { result ≡ difference binary64 x y }
{
    integer_arithmetic::difference(x, y)
}

#[unsafe(no_mangle)]
pub extern "C" fn ew_check_product(x: u64, y: u64) -> u64
    ensures { result ≡ product binary64 x y }
{
    integer_arithmetic::product(x, y)
}

// ---- by the language's own operations

#[unsafe(no_mangle)]
pub extern "C" fn ew_check_float_sum(x: u64, y: u64) -> u64
    ensures { result ≡ on_finite x y (sum binary64 x y) }
{
    if both_finite(x, y) {
        return floats::sum(x, y);
    }
    default_nan::<u64>()
}

#[unsafe(no_mangle)]
pub extern "C" fn ew_check_float_difference(x: u64, y: u64) -> u64
    ensures { result ≡ on_finite x y (difference binary64 x y) }
{
    if both_finite(x, y) {
        return floats::difference(x, y);
    }
    default_nan::<u64>()
}

#[unsafe(no_mangle)]
pub extern "C" fn ew_check_float_product(x: u64, y: u64) -> u64
    ensures { result ≡ on_finite x y (product binary64 x y) }
{
    if both_finite(x, y) {
        return floats::product(x, y);
    }
    default_nan::<u64>()
}

// ---- at a width of a caller's own

#[unsafe(no_mangle)]
pub extern "C" fn ew_check_own_default_nan() -> u32
    ensures { result ≡ default_nan binary32 }
{
    default_nan::<Single>() as u32
}

#[unsafe(no_mangle)]
pub extern "C" fn ew_check_own_fmod(x: u32, y: u32) -> u32
    ensures { result ≡ fmod binary32 x y }
{
    remainder::fmod(Single(x), Single(y)).word.0
}
