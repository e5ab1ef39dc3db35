// Ranges and their ends.
ghost use Rattle.std.specs.Prelude.{◌≡◌};
ghost use Rattle.semantics.specs.Range.{low, high, least, most, low_word, high_word, kind_of};
ghost use Rattle.values.specs.Seen.{seen};
ghost use Rattle.ranges.specs.Seen.{seen_range};
ghost use Rattle.ranges.specs.Carried.{spanned};

use super::{DoubleRange, Ends, Range, WholeRange};
use recipe::Kind;
use twos_complement::word;
use values::Value;

impl Range {
    // From one value to another of its kind. Of two kinds, which no rule gives, zero to zero.
    pub(crate) fn of(low: Value, high: Value) -> Range
        ensures { seen_range result ≡ spanned (seen low) (seen high) }
    {
        match (low, high) {
            (Value::Double(low), Value::Double(high)) => Range::Doubles(DoubleRange { low, high }),
            (Value::Whole(low), Value::Whole(high)) => Range::Wholes(WholeRange { low, high }),
            _ => Range::Wholes(WholeRange { low: 0, high: 0 }),
        }
    }

    // As an operand that is a double: its ends.
    pub fn ends(self) -> Ends
        ensures { (result.low ≡ low (seen_range self)) × (result.high ≡ high (seen_range self)) }
    {
        match self {
            Range::Doubles(d) => Ends {
                low: d.low.pattern(),
                high: d.high.pattern(),
            },
            Range::Wholes(_) => Ends { low: 0, high: 0 },
        }
    }

    // As an operand that is a whole number: its ends.
    pub fn wholes(self) -> WholeRange
        ensures { (result.low ≡ least (seen_range self)) × (result.high ≡ most (seen_range self)) }
    {
        match self {
            Range::Doubles(_) => WholeRange { low: 0, high: 0 },
            Range::Wholes(w) => w,
        }
    }

    // The 64 bits of its ends.
    pub fn low_word(self) -> u64
        ensures { result ≡ low_word (seen_range self) }
    {
        match self {
            Range::Doubles(d) => d.low.pattern(),
            Range::Wholes(w) => word(w.low),
        }
    }

    pub fn high_word(self) -> u64
        ensures { result ≡ high_word (seen_range self) }
    {
        match self {
            Range::Doubles(d) => d.high.pattern(),
            Range::Wholes(w) => word(w.high),
        }
    }

    pub fn kind(self) -> Kind
        ensures { result ≡ kind_of (seen_range self) }
    {
        match self {
            Range::Doubles(_) => Kind::Double,
            Range::Wholes(_) => Kind::Whole,
        }
    }
}
