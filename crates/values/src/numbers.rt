// Doubles that are numbers.
ghost use Rattle.std.specs.Prelude.{◌≡◌, false};
ghost use Rattle.std.specs.Float.{binary64};
ghost use Rattle.std.specs.Float.Ieee.{to_bits, is_nan};
ghost use Rattle.semantics.specs.Value.{double};
ghost use Rattle.values.specs.Carried.{real};

use float_format::Pattern;

// A double that is no NaN: one whose pattern the language can read back.
#[derive(Clone, Copy)]
pub struct Number {
    value: f64,
    pub ghost is_number: { is_nan value ≡ false },
}

impl Number {
    // Of a float that is no NaN.
    pub(crate) fn of_float(value: f64) -> Number
        requires { is_nan value ≡ false }
        ensures { result.value ≡ value }
    {
        Number { value }
    }

    // Of a pattern; +0 of a NaN, which no step comes to.
    pub(crate) fn of_pattern(x: u64) -> Number
        ensures { double (to_bits binary64 result.value) ≡ real x }
    {
        let y = if x.is_nan() { 0 } else { x };
        Number::of_float(f64::from_bits(y))
    }

    pub fn pattern(self) -> u64
        ensures { result ≡ to_bits binary64 self.value }
    {
        f64::to_bits(self.value)
    }
}
