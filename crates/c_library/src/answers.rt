// What the exported functions answer, as C knows it: include/estrenwind.h declares these. A refusal is its number, 0 where there is none.
ghost use Rattle.std.specs.Prelude.{◌≡◌};
ghost use Rattle.float_format.specs.Refusals.{refusal_number};
ghost use Rattle.rounding.specs.Answer.{refusal_of, value_of};

use float_format::{Refusal, Word};
use nearest_remainder::WithQuotient;
use scaling::Decomposed;
use splitting::Patterns;

// A pattern.
#[repr(C)]
#[derive(Drop)]
pub struct Word64 {
    pub word: u64,
    pub refusal: u64,
}

impl From<Word<u64>> for Word64 {
    ghost from_gives = { λ answer c. (c.word ≡ answer.word) × (c.refusal ≡ refusal_number answer.refusal) };

    fn from(answer: Word<u64>) -> Word64 {
        Word64 {
            word: answer.word,
            refusal: answer.number(),
        }
    }
}

#[repr(C)]
#[derive(Drop)]
pub struct Word32 {
    pub word: u32,
    pub refusal: u64,
}

impl From<Word<u32>> for Word32 {
    ghost from_gives = { λ answer c. (c.word ≡ answer.word) × (c.refusal ≡ refusal_number answer.refusal) };

    fn from(answer: Word<u32>) -> Word32 {
        Word32 {
            word: answer.word,
            refusal: answer.number(),
        }
    }
}

#[repr(C)]
#[derive(Drop)]
pub struct Word16 {
    pub word: u16,
    pub refusal: u64,
}

impl From<Word<u16>> for Word16 {
    ghost from_gives = { λ answer c. (c.word ≡ answer.word) × (c.refusal ≡ refusal_number answer.refusal) };

    fn from(answer: Word<u16>) -> Word16 {
        Word16 {
            word: answer.word,
            refusal: answer.number(),
        }
    }
}

// A whole number, 0 where it is refused.
#[repr(C)]
#[derive(Drop)]
pub struct Whole {
    pub value: i64,
    pub refusal: u64,
}

impl From<Result<i64, Refusal>> for Whole {
    ghost from_gives = { λ answer c. (c.value ≡ value_of answer) × (c.refusal ≡ refusal_of answer) };

    fn from(answer: Result<i64, Refusal>) -> Whole {
        match answer {
            Ok(value) => Whole { value, refusal: 0 },
            Err(refusal) => Whole {
                value: 0,
                refusal: u64::from(refusal),
            },
        }
    }
}

// The whole part and the fraction of a number.
#[repr(C)]
#[derive(Drop)]
pub struct Patterns64 {
    pub whole: u64,
    pub fraction: u64,
}

impl From<Patterns<u64>> for Patterns64 {
    ghost from_gives = { λ answer c. (c.whole ≡ answer.whole) × (c.fraction ≡ answer.fraction) };

    fn from(answer: Patterns<u64>) -> Patterns64 {
        Patterns64 {
            whole: answer.whole,
            fraction: answer.fraction,
        }
    }
}

#[repr(C)]
#[derive(Drop)]
pub struct Patterns32 {
    pub whole: u32,
    pub fraction: u32,
}

impl From<Patterns<u32>> for Patterns32 {
    ghost from_gives = { λ answer c. (c.whole ≡ answer.whole) × (c.fraction ≡ answer.fraction) };

    fn from(answer: Patterns<u32>) -> Patterns32 {
        Patterns32 {
            whole: answer.whole,
            fraction: answer.fraction,
        }
    }
}

// A fraction and a power of two.
#[repr(C)]
#[derive(Drop)]
pub struct Frexp64 {
    pub fraction: u64,
    pub exponent: i64,
}

impl From<Decomposed<u64>> for Frexp64 {
    ghost from_gives = { λ answer c. (c.fraction ≡ answer.fraction) × (c.exponent ≡ answer.exponent) };

    fn from(answer: Decomposed<u64>) -> Frexp64 {
        Frexp64 {
            fraction: answer.fraction,
            exponent: answer.exponent,
        }
    }
}

#[repr(C)]
#[derive(Drop)]
pub struct Frexp32 {
    pub fraction: u32,
    pub exponent: i64,
}

impl From<Decomposed<u32>> for Frexp32 {
    ghost from_gives = { λ answer c. (c.fraction ≡ answer.fraction) × (c.exponent ≡ answer.exponent) };

    fn from(answer: Decomposed<u32>) -> Frexp32 {
        Frexp32 {
            fraction: answer.fraction,
            exponent: answer.exponent,
        }
    }
}

// A remainder and a quotient with its sign. 16 bytes, which a C function returns in registers.
#[repr(C)]
#[derive(Drop)]
pub struct Remquo64 {
    pub word: u64,
    pub quotient: i32,
    pub refusal: u32,
}

impl From<WithQuotient<u64>> for Remquo64 {
    ghost from_gives = { λ answer c. (c.word ≡ answer.word) × (c.quotient ≡ answer.quotient) × (c.refusal ≡ refusal_number answer.refusal) };

    fn from(answer: WithQuotient<u64>) -> Remquo64 {
        Remquo64 {
            word: answer.word,
            quotient: answer.quotient,
            refusal: answer.number() as u32,
        }
    }
}

#[repr(C)]
#[derive(Drop)]
pub struct Remquo32 {
    pub word: u32,
    pub quotient: i32,
    pub refusal: u64,
}

impl From<WithQuotient<u32>> for Remquo32 {
    ghost from_gives = { λ answer c. (c.word ≡ answer.word) × (c.quotient ≡ answer.quotient) × (c.refusal ≡ refusal_number answer.refusal) };

    fn from(answer: WithQuotient<u32>) -> Remquo32 {
        Remquo32 {
            word: answer.word,
            quotient: answer.quotient,
            refusal: answer.number(),
        }
    }
}
