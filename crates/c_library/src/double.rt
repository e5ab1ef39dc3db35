// A double of C: a pattern of binary64 under a name of its own. What is generic is made anew for it, and put into the one function that calls it;
// shared with the recipes' steps, it would be called, and its answer handed over in memory that a register of floats clears.
ghost use Rattle.std.specs.Prelude.{refl};
ghost use Rattle.float_format.specs.Format.{binary64};
ghost use Rattle.float_format.specs.Widths.{word64, wide64};

use float_format::{Constants, Pattern, Wide};

#[derive(Clone, Copy)]
pub struct Double(pub u64);

impl Pattern for Double {
    ghost format = { binary64 };

    ghost bits = { λ x. x.0 };

    ghost fits = { word64 };

    fn known_default_nan() -> Option<u64> {
        Some(Self::DEFAULT_NAN.to_word())
    }

    fn fraction_bits() -> u64 {
        Self::FRACTION_SIZE
    }

    fn exponent_bits() -> u64 {
        Self::EXPONENT_SIZE
    }

    fn to_word(self) -> u64 {
        self.0
    }

    fn from_word(word: u64) -> Double {
        Double(word)
    }
}

impl Constants for Double {
    ghost FRACTION_SIZE = { 52 };

    const FRACTION_SIZE: u64 = 52;

    ghost EXPONENT_SIZE = { 11 };

    const EXPONENT_SIZE: u64 = 11;

    ghost DEFAULT_NAN = { record { 0 = 9221120237041090560 } };

    const DEFAULT_NAN: Double = Double(0x7ff8_0000_0000_0000);

    ghost sizes = { (refl, refl) };

    ghost default = { refl };
}

impl Wide for Double {
    ghost wide = { wide64 };
}
