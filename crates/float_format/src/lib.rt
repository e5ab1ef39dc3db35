// Formats of binary floating point: patterns as words of 64, 32 and 16 bits, with what all functions on them ask.
#![tactic(auto)]

ghost use Rattle.std.specs.Prelude.{◌≡◌, refl, ℕ, ◌*◌, ◌<◌, None, IfSome};
ghost use Rattle.float_format.specs.Format.{Format, binary64, binary32, binary16, sign_bit, classify, class_number, is_nan, quieted, absolute, negated, default_nan};
ghost use Rattle.float_format.specs.Number.{rank};
ghost use Rattle.float_format.specs.Width.{InWord, Wide};
ghost use Rattle.float_format.specs.declared.Class.{Class};
ghost use Rattle.float_format.specs.Refusals.{number_of, refusal_number};
ghost use Rattle.float_format.specs.Widths.{word64, word32, word16, wide64, wide32};

pub mod field_sizes;
pub mod width;

// What a pattern stands for. Document 01 numbers the classes 0 to 4, in this order.
#[derive(Clone, Copy, PartialEq, Eq)]
pub enum Class {
    Nan,
    Infinite,
    Zero,
    Subnormal,
    Normal,
}

impl From<Class> for u8 {
    ghost from_gives = { λ class n. n ≡ class_number class };

    // The number of the class: 0 NaN, 1 infinite, 2 zero, 3 subnormal, 4 normal.
    fn from(class: Class) -> u8 {
        match class {
            Class::Nan => 0,
            Class::Infinite => 1,
            Class::Zero => 2,
            Class::Subnormal => 3,
            Class::Normal => 4,
        }
    }
}

// How a number is rounded to a whole one: floor, ceil, trunc, round, nearbyint.
#[derive(Clone, Copy, PartialEq, Eq)]
pub enum Direction {
    Down,
    Up,
    TowardZero,
    HalfAway,
    HalfEven,
}

// A pattern of a binary floating-point format, as the unsigned number that has its bits: u64 of binary64, f64's patterns; u32 of
// binary32, f32's; u16 of binary16, those of halves.
pub trait Pattern: Copy {
    ghost format: { Format };

    // The number of the pattern.
    ghost bits: { Self → ℕ };

    // The default NaN, of a type that has it as a constant (`Constants`). Of any other, `width::default_nan` works it out.
    fn known_default_nan() -> Option<u64>
        ensures { IfSome result (λ word. word ≡ default_nan format) }
    {
        None
    }

    // The sizes of the fraction and of the exponent field. Beside them stands the sign.
    fn fraction_bits() -> u64
        ensures { result ≡ format.fraction };

    fn exponent_bits() -> u64
        ensures { result ≡ format.exponent };

    fn to_word(self) -> u64
        ensures { (result ≡ bits self) × (result < 2 * sign_bit format) };

    fn from_word(word: u64) -> Self
        requires { word < 2 * sign_bit format }
        ensures { bits result ≡ word };

    // The class of x.
    final fn classify(self) -> Class
        ensures { result ≡ classify format (bits self) }
    {
        let a = width::rest::<Self>(self.to_word());
        let infinity = width::infinity_of::<Self>();
        let smallest_normal = width::unit::<Self>();
        if a > infinity {
            return Class::Nan;
        }
        if a == infinity {
            return Class::Infinite;
        }
        if a == 0 {
            return Class::Zero;
        }
        if a < smallest_normal {
            return Class::Subnormal;
        }
        Class::Normal
    }

    // Whether x is a NaN.
    final fn is_nan(self) -> bool
        ensures { result ≡ is_nan format (bits self) }
    {
        width::rest::<Self>(self.to_word()) > width::infinity_of::<Self>()
    }

    // x with the top fraction bit set, which makes a NaN quiet.
    final fn quiet(self) -> Self
        ensures { bits result ≡ quieted format (bits self) }
    {
        Self::from_word(width::quiet::<Self>(self.to_word()))
    }

    // x with its sign cleared, NaN included.
    final fn fabs(self) -> Self
        ensures { bits result ≡ absolute format (bits self) }
    {
        Self::from_word(width::rest::<Self>(self.to_word()))
    }

    // x with its sign flipped, NaN included.
    final fn negate(self) -> Self
        ensures { bits result ≡ negated format (bits self) }
    {
        Self::from_word(self.to_word() ^ width::sign_bit::<Self>())
    }

    // A whole number by which patterns compare as their numbers do, the two zeros equal.
    final fn rank(self) -> Self
        ensures { bits result ≡ rank format (bits self) }
    {
        Self::from_word(width::rank::<Self>(self.to_word()))
    }

    ghost fits: { InWord format };
}

// A format's numbers as constants of its type.
pub trait Constants: Pattern {
    // The sizes of the fraction and of the exponent field.
    ghost FRACTION_SIZE: { ℕ };

    const FRACTION_SIZE: u64;

    ghost EXPONENT_SIZE: { ℕ };

    const EXPONENT_SIZE: u64;

    // The NaN that a function answers where it refuses and no operand is one.
    ghost DEFAULT_NAN: { Self };

    const DEFAULT_NAN: Self;

    ghost sizes: { (FRACTION_SIZE ≡ Self.format.fraction) × (EXPONENT_SIZE ≡ Self.format.exponent) };

    ghost default: { Self.bits DEFAULT_NAN ≡ default_nan Self.format };
}

impl Pattern for u64 {
    ghost format = { binary64 };

    ghost bits = { λ x. x };

    ghost fits = { word64 };

    fn known_default_nan() -> Option<u64> {
        Some(Self::DEFAULT_NAN.to_word())
    }

    fn fraction_bits() -> u64 {
        Self::FRACTION_SIZE
    }

    fn exponent_bits() -> u64 {
        Self::EXPONENT_SIZE
    }

    fn to_word(self) -> u64 {
        self
    }

    fn from_word(word: u64) -> u64 {
        word
    }
}

impl Constants for u64 {
    ghost FRACTION_SIZE = { 52 };

    const FRACTION_SIZE: u64 = 52;

    ghost EXPONENT_SIZE = { 11 };

    const EXPONENT_SIZE: u64 = 11;

    ghost DEFAULT_NAN = { 9221120237041090560 };

    const DEFAULT_NAN: u64 = 0x7ff8_0000_0000_0000;

    ghost sizes = { (refl, refl) };

    ghost default = { refl };
}

impl Pattern for u32 {
    ghost format = { binary32 };

    ghost bits = { λ x. x };

    ghost fits = { word32 };

    fn known_default_nan() -> Option<u64> {
        Some(Self::DEFAULT_NAN.to_word())
    }

    fn fraction_bits() -> u64 {
        Self::FRACTION_SIZE
    }

    fn exponent_bits() -> u64 {
        Self::EXPONENT_SIZE
    }

    fn to_word(self) -> u64 {
        self as u64
    }

    fn from_word(word: u64) -> u32 {
        word as u32
    }
}

impl Constants for u32 {
    ghost FRACTION_SIZE = { 23 };

    const FRACTION_SIZE: u64 = 23;

    ghost EXPONENT_SIZE = { 8 };

    const EXPONENT_SIZE: u64 = 8;

    ghost DEFAULT_NAN = { 2143289344 };

    const DEFAULT_NAN: u32 = 0x7fc0_0000;

    ghost sizes = { (refl, refl) };

    ghost default = { refl };
}

impl Pattern for u16 {
    ghost format = { binary16 };

    ghost bits = { λ x. x };

    ghost fits = { word16 };

    fn known_default_nan() -> Option<u64> {
        Some(Self::DEFAULT_NAN.to_word())
    }

    fn fraction_bits() -> u64 {
        Self::FRACTION_SIZE
    }

    fn exponent_bits() -> u64 {
        Self::EXPONENT_SIZE
    }

    fn to_word(self) -> u64 {
        self as u64
    }

    fn from_word(word: u64) -> u16 {
        word as u16
    }
}

impl Constants for u16 {
    ghost FRACTION_SIZE = { 10 };

    const FRACTION_SIZE: u64 = 10;

    ghost EXPONENT_SIZE = { 5 };

    const EXPONENT_SIZE: u64 = 5;

    ghost DEFAULT_NAN = { 32256 };

    const DEFAULT_NAN: u16 = 0x7e00;

    ghost sizes = { (refl, refl) };

    ghost default = { refl };
}

// The formats that have all functions: a half has the roundings and its conversions alone.
pub trait Wide: Pattern {
    ghost wide: { Wide Self.format };
}

impl Wide for u64 {
    ghost wide = { wide64 };
}

impl Wide for u32 {
    ghost wide = { wide32 };
}

// Why a function refuses. Document 01 numbers the refusals 1 to 3, in this order.
#[derive(Clone, Copy, PartialEq, Eq)]
pub enum Refusal {
    NotANumber,
    Undefined,
    OutOfRange,
}

impl From<Refusal> for u64 {
    ghost from_gives = { λ refusal n. n ≡ number_of refusal };

    fn from(refusal: Refusal) -> u64 {
        match refusal {
            Refusal::NotANumber => 1,
            Refusal::Undefined => 2,
            Refusal::OutOfRange => 3,
        }
    }
}

// What a function that may refuse answers: a pattern, which is fixed where it refuses too, and the refusal.
#[derive(Clone, Copy)]
pub struct Word<P> {
    pub word: P,
    pub refusal: Option<Refusal>,
}

impl<P: Copy> Word<P> {
    // The answer without a refusal.
    pub fn of(word: P) -> Word<P>
        ensures { (result.word ≡ word) × (result.refusal ≡ None) }
    {
        Word {
            word,
            refusal: None,
        }
    }

    // The number of the refusal, 0 where there is none.
    pub fn number(self) -> u64
        ensures { result ≡ refusal_number self.refusal }
    {
        match self.refusal {
            Some(refusal) => u64::from(refusal),
            None => 0,
        }
    }
}
