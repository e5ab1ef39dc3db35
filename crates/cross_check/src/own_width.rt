// A width under a caller's own name: the patterns of binary32, with what `Pattern` and `Wide` ask and no more. It has none of `Constants`, so that
// its default NaN is worked out.
ghost use Rattle.float_format.specs.Format.{binary32};
ghost use Rattle.float_format.specs.Widths.{word32, wide32};

use float_format::{Pattern, Wide};

#[derive(Clone, Copy)]
pub struct Single(pub u32);

impl Pattern for Single {
    ghost format = { binary32 };

    ghost bits = { λ x. x.0 };

    ghost fits = { word32 };

    fn fraction_bits() -> u64 {
        23
    }

    fn exponent_bits() -> u64 {
        8
    }

    fn to_word(self) -> u64 {
        u64::from(self.0)
    }

    fn from_word(word: u64) -> Single {
        Single(word as u32)
    }
}

impl Wide for Single {
    ghost wide = { wide32 };
}
