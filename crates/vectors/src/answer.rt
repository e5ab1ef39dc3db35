// What a case answers, and the line that says it.
ghost use Rattle.std.specs.Prelude.{◌≡◌, length};
ghost use Rattle.std.specs.Int.{w64};
ghost use Rattle.std.proofs.Common.{of_z};
ghost use Rattle.float_format.specs.Format.{class_number};
ghost use Rattle.float_format.specs.Refusals.{refusal_number};
ghost use Rattle.rounding.specs.Answer.{refusal_of, value_of};
ghost use Rattle.vectors.specs.Answer.{words, pattern_answer, unknown_answer, whole_answer};
ghost use Rattle.vectors.specs.Line.{line_of};

use float_format::{Class, Pattern, Refusal, Word};
use nearest_remainder::WithQuotient;
use scaling::Decomposed;
use splitting::Patterns;
use twos_complement::word;

// The bytes of a line of output, with its line feed.
pub const LINE: usize = 37;

// The refusal's number, 0 where there is none, and the words returned, 0 where there is none.
#[derive(Drop)]
pub struct Answer {
    pub refusal: u64,
    pub first: u64,
    pub second: u64,
}

impl Answer {
    // To a line that is malformed, and to a function or a width that is not known.
    pub(crate) fn unknown() -> Answer
        ensures { result ≡ unknown_answer }
    {
        Answer {
            refusal: 0xff,
            first: 0,
            second: 0,
        }
    }

    // One pattern, and no refusal.
    pub(crate) fn pattern<P: Pattern>(x: P) -> Answer
        ensures { result ≡ pattern_answer (P.bits x) }
    {
        Answer {
            refusal: 0,
            first: x.to_word(),
            second: 0,
        }
    }

    // Fills a line of output.
    pub(crate) fn format(self, line: &mut [u8])
        requires { length line.old ≡ 37 }
        ensures { line.new ≡ line_of self }
    {
        hexadecimal::write(self.refusal, &mut line[..2]);
        line[2] = b' ';
        hexadecimal::write(self.first, &mut line[3..19]);
        line[19] = b' ';
        hexadecimal::write(self.second, &mut line[20..36]);
        line[36] = b'\n';
    }
}

impl<P: Pattern> From<Word<P>> for Answer {
    ghost from_gives = { λ r a. a ≡ words (refusal_number r.refusal) (P.bits r.word) 0 };

    fn from(r: Word<P>) -> Answer {
        Answer {
            refusal: r.number(),
            first: r.word.to_word(),
            second: 0,
        }
    }
}

impl<P: Pattern> From<Patterns<P>> for Answer {
    ghost from_gives = { λ r a. a ≡ words 0 (P.bits r.whole) (P.bits r.fraction) };

    fn from(r: Patterns<P>) -> Answer {
        Answer {
            refusal: 0,
            first: r.whole.to_word(),
            second: r.fraction.to_word(),
        }
    }
}

impl<P: Pattern> From<Decomposed<P>> for Answer {
    ghost from_gives = { λ r a. a ≡ words 0 (P.bits r.fraction) (of_z w64 r.exponent) };

    fn from(r: Decomposed<P>) -> Answer {
        Answer {
            refusal: 0,
            first: r.fraction.to_word(),
            second: word(r.exponent),
        }
    }
}

impl<P: Pattern> From<WithQuotient<P>> for Answer {
    ghost from_gives = { λ r a. a ≡ words (refusal_number r.refusal) (P.bits r.word) (of_z w64 r.quotient) };

    fn from(r: WithQuotient<P>) -> Answer {
        Answer {
            refusal: r.number(),
            first: r.word.to_word(),
            second: word(r.quotient as i64),
        }
    }
}

impl From<Class> for Answer {
    ghost from_gives = { λ k a. a ≡ pattern_answer (class_number k) };

    fn from(class: Class) -> Answer {
        Answer {
            refusal: 0,
            first: u8::from(class) as u64,
            second: 0,
        }
    }
}

impl From<Result<i64, Refusal>> for Answer {
    ghost from_gives = { λ n a. a ≡ whole_answer (refusal_of n) (value_of n) };

    fn from(n: Result<i64, Refusal>) -> Answer {
        match n {
            Ok(value) => Answer {
                refusal: 0,
                first: word(value),
                second: 0,
            },
            Err(refusal) => Answer {
                refusal: u64::from(refusal),
                first: 0,
                second: 0,
            },
        }
    }
}
