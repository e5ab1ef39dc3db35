// The language's own addition, subtraction and multiplication of finite doubles, as patterns: under the contracts of the whole-number
// functions, by the law that these are the language's operations.
ghost use Rattle.std.specs.Prelude.{◌≡◌, ◌<◌};
ghost use Rattle.float_format.specs.Format.{binary64, infinity, unsigned};
ghost use Rattle.arithmetic.specs.Arithmetic.{sum, difference, product};

pub(crate) fn sum(x: u64, y: u64) -> u64
    requires { (unsigned binary64 x < infinity binary64) × (unsigned binary64 y < infinity binary64) }
    ensures { result ≡ sum binary64 x y }
{
    f64::to_bits(f64::from_bits(x) + f64::from_bits(y))
}

pub(crate) fn difference(x: u64, y: u64) -> u64
    requires { (unsigned binary64 x < infinity binary64) × (unsigned binary64 y < infinity binary64) }
    ensures { result ≡ difference binary64 x y }
{
    f64::to_bits(f64::from_bits(x) - f64::from_bits(y))
}

pub(crate) fn product(x: u64, y: u64) -> u64
    requires { (unsigned binary64 x < infinity binary64) × (unsigned binary64 y < infinity binary64) }
    ensures { result ≡ product binary64 x y }
{
    f64::to_bits(f64::from_bits(x) * f64::from_bits(y))
}
