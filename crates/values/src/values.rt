// Values and their words.
ghost use Rattle.std.specs.Prelude.{◌≡◌};
ghost use Rattle.semantics.specs.Value.{whole, as_double, as_whole, word_of, kind_of};
ghost use Rattle.values.specs.Carried.{real};
ghost use Rattle.values.specs.Seen.{seen};

use super::{Number, Value};
use recipe::Kind;
use twos_complement::word;

impl Value {
    // The double of a pattern, and +0 for a NaN, which no step comes to.
    pub(crate) fn real(x: u64) -> Value
        ensures { seen result ≡ real x }
    {
        Value::Double(Number::of_pattern(x))
    }

    // As an operand that is a double: its pattern.
    pub(crate) fn double(self) -> u64
        ensures { result ≡ as_double (seen self) }
    {
        match self {
            Value::Double(x) => x.pattern(),
            Value::Whole(_) => 0,
        }
    }

    // As an operand that is a whole number.
    pub(crate) fn whole(self) -> i64
        ensures { result ≡ as_whole (seen self) }
    {
        match self {
            Value::Double(_) => 0,
            Value::Whole(z) => z,
        }
    }

    // Its 64 bits.
    pub fn word(self) -> u64
        ensures { result ≡ word_of (seen self) }
    {
        match self {
            Value::Double(x) => x.pattern(),
            Value::Whole(z) => word(z),
        }
    }

    pub fn kind(self) -> Kind
        ensures { result ≡ kind_of (seen self) }
    {
        match self {
            Value::Double(_) => Kind::Double,
            Value::Whole(_) => Kind::Whole,
        }
    }
}
