// Why a call on a recipe turns down what it is given, and the answers that tell C so (document 01, "Turning text down").
#![tactic(auto)]

ghost use Rattle.std.specs.Prelude.{◌≡◌};
ghost use Rattle.semantics.specs.Run as run;
ghost use Rattle.semantics.specs.Shown as sheet;
ghost use Rattle.semantics.specs.Explain as explain;
ghost use Rattle.calls.specs.declared.Refused.TheVariants.{Text};
ghost use Rattle.calls.specs.Numbers.{number_of, place_of};

use recipe::{Refusal, StepNumber};
use semantics::{ExplainAnswer, RunAnswer, SheetAnswer};

#[derive(Clone, Copy)]
pub enum Refused {
    // What the reader says of the text.
    Text(Refusal),
    // The words are not those of 1 to 128 steps.
    Words,
    // More than 16 of the steps are inputs.
    Inputs,
    // A step has no value, or on the sheet no range.
    Step(values::Refusal, StepNumber),
    // The frame is not 16 digits an input.
    FrameLength,
    // A byte of the frame is no lower-case hexadecimal digit.
    FrameDigit,
    // The first input that is a NaN or outside the range that it declares.
    Outside(StepNumber),
    // The caller lends too little room for what the call writes.
    Room,
}

impl Refused {
    // The number by which a caller is told.
    pub fn number(self) -> u64
        ensures { result ≡ number_of self }
    {
        match self {
            Refused::Text(refusal) => refusal.fault as u64,
            Refused::Words => 10,
            Refused::Inputs => 17,
            Refused::Step(why, _) => u64::from(why),
            Refused::FrameLength => 30,
            Refused::FrameDigit => 31,
            Refused::Outside(_) => 32,
            Refused::Room => 40,
        }
    }

    // The step that it is about; 0 where it is about none.
    pub fn place(self) -> u64
        ensures { result ≡ place_of self }
    {
        match self {
            Refused::Text(refusal) => u64::from(refusal.place.0),
            Refused::Step(_, k) | Refused::Outside(k) => u64::from(k.0),
            _ => 0,
        }
    }
}

impl From<Refusal> for Refused {
    ghost from_gives = { λ refusal why. why ≡ Text refusal };

    fn from(refusal: Refusal) -> Refused {
        Refused::Text(refusal)
    }
}

impl From<Refused> for RunAnswer {
    ghost from_gives = { λ why answer. answer ≡ run.answer_of (run.refused (number_of why) (place_of why)) };

    fn from(why: Refused) -> RunAnswer {
        RunAnswer {
            refusal: why.number(),
            place: why.place(),
            kind: 0,
            word: 0,
        }
    }
}

impl From<Refused> for SheetAnswer {
    ghost from_gives = { λ why answer. answer ≡ sheet.answer_of (sheet.refused (number_of why) (place_of why)) };

    fn from(why: Refused) -> SheetAnswer {
        SheetAnswer {
            refusal: why.number(),
            place: why.place(),
            steps: 0,
        }
    }
}

impl From<Refused> for ExplainAnswer {
    ghost from_gives = { λ why answer. answer ≡ explain.answer_of (explain.refused (number_of why) (place_of why)) };

    fn from(why: Refused) -> ExplainAnswer {
        ExplainAnswer {
            refusal: why.number(),
            place: why.place(),
            step: 0,
            operand: 0,
            reason: 0,
        }
    }
}
