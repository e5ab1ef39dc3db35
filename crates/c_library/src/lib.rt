// The C library: each exported function is one call of the layer that has it. include/estrenwind.h declares them.
#![tactic(auto)]

ghost use Rattle.std.specs.Prelude.{◌≡◌, List, length};
ghost use Rattle.float_format.specs.Format.{binary16, binary32, binary64, classify, class_number, absolute, negated};
ghost use Rattle.float_format.specs.Rounding.{integral, lround_refusal, lround_value};
ghost use Rattle.float_format.specs.declared.Direction.TheVariants.{Down, Up, TowardZero, HalfAway, HalfEven};
ghost use Rattle.conversion.specs.Conversion.{converted, converted_refusal};
ghost use Rattle.splitting.specs.Splitting.{modf_whole, modf_fraction};
ghost use Rattle.scaling.specs.Scaling.{frexp_fraction, frexp_exponent, ldexp, ldexp_refusal};
ghost use Rattle.remainder.specs.Remainder.{fmod, fmod_refusal};
ghost use Rattle.nearest_remainder.specs.Nearest.{remainder, remquo_quotient};
ghost use Rattle.ordering.specs.Ordering.{nextafter, nextafter_refusal, fmin, fmax};
ghost use Rattle.recipe.specs.declared.Step.{Step};
ghost use Rattle.recipe.specs.Text.{short, steps, read_text};
ghost use Rattle.semantics.specs.Run.{run_of, answer_of, words_of};
ghost use Rattle.semantics.specs.Shown.{sheet_of, bytes_of};
ghost use Rattle.semantics.specs.Shown as sheet;
ghost use Rattle.semantics.specs.Explain.{explain_of};
ghost use Rattle.semantics.specs.Explain as explain;
ghost use Rattle.semantics.specs.Promise.{Keeps};
ghost use Rattle.programs.specs.Batch.{batch_of};
ghost use Rattle.programs.specs.Batch as batch;

pub use answers::{
    Frexp32, Frexp64, Patterns32, Patterns64, Remquo32, Remquo64, Whole, Word16, Word32, Word64,
};
use double::Double;
use float_format::Pattern;
use programs::LinesAnswer;
use semantics::{ExplainAnswer, RunAnswer, SheetAnswer};

mod answers;
mod double;

#[unsafe(no_mangle)]
pub extern "C" fn ew_floor_f64(x: u64) -> u64
    ensures { result ≡ integral binary64 Down x }
{
    rounding::floor::<u64>(x)
}

#[unsafe(no_mangle)]
pub extern "C" fn ew_floor_f32(x: u32) -> u32
    ensures { result ≡ integral binary32 Down x }
{
    rounding::floor::<u32>(x)
}

#[unsafe(no_mangle)]
pub extern "C" fn ew_floor_f16(x: u16) -> u16
    ensures { result ≡ integral binary16 Down x }
{
    rounding::floor::<u16>(x)
}

#[unsafe(no_mangle)]
pub extern "C" fn ew_ceil_f64(x: u64) -> u64
    ensures { result ≡ integral binary64 Up x }
{
    rounding::ceil::<u64>(x)
}

#[unsafe(no_mangle)]
pub extern "C" fn ew_ceil_f32(x: u32) -> u32
    ensures { result ≡ integral binary32 Up x }
{
    rounding::ceil::<u32>(x)
}

#[unsafe(no_mangle)]
pub extern "C" fn ew_ceil_f16(x: u16) -> u16
    ensures { result ≡ integral binary16 Up x }
{
    rounding::ceil::<u16>(x)
}

#[unsafe(no_mangle)]
pub extern "C" fn ew_trunc_f64(x: u64) -> u64
    ensures { result ≡ integral binary64 TowardZero x }
{
    rounding::trunc::<u64>(x)
}

#[unsafe(no_mangle)]
pub extern "C" fn ew_trunc_f32(x: u32) -> u32
    ensures { result ≡ integral binary32 TowardZero x }
{
    rounding::trunc::<u32>(x)
}

#[unsafe(no_mangle)]
pub extern "C" fn ew_trunc_f16(x: u16) -> u16
    ensures { result ≡ integral binary16 TowardZero x }
{
    rounding::trunc::<u16>(x)
}

#[unsafe(no_mangle)]
pub extern "C" fn ew_round_f64(x: u64) -> u64
    ensures { result ≡ integral binary64 HalfAway x }
{
    rounding::round::<u64>(x)
}

#[unsafe(no_mangle)]
pub extern "C" fn ew_round_f32(x: u32) -> u32
    ensures { result ≡ integral binary32 HalfAway x }
{
    rounding::round::<u32>(x)
}

#[unsafe(no_mangle)]
pub extern "C" fn ew_round_f16(x: u16) -> u16
    ensures { result ≡ integral binary16 HalfAway x }
{
    rounding::round::<u16>(x)
}

#[unsafe(no_mangle)]
pub extern "C" fn ew_nearbyint_f64(x: u64) -> u64
    ensures { result ≡ integral binary64 HalfEven x }
{
    rounding::nearbyint::<u64>(x)
}

#[unsafe(no_mangle)]
pub extern "C" fn ew_nearbyint_f32(x: u32) -> u32
    ensures { result ≡ integral binary32 HalfEven x }
{
    rounding::nearbyint::<u32>(x)
}

#[unsafe(no_mangle)]
pub extern "C" fn ew_nearbyint_f16(x: u16) -> u16
    ensures { result ≡ integral binary16 HalfEven x }
{
    rounding::nearbyint::<u16>(x)
}

#[unsafe(no_mangle)]
pub extern "C" fn ew_fabs_f64(x: u64) -> u64
    ensures { result ≡ absolute binary64 x }
{
    u64::fabs(x)
}

#[unsafe(no_mangle)]
pub extern "C" fn ew_fabs_f32(x: u32) -> u32
    ensures { result ≡ absolute binary32 x }
{
    u32::fabs(x)
}

#[unsafe(no_mangle)]
pub extern "C" fn ew_negate_f64(x: u64) -> u64
    ensures { result ≡ negated binary64 x }
{
    u64::negate(x)
}

#[unsafe(no_mangle)]
pub extern "C" fn ew_negate_f32(x: u32) -> u32
    ensures { result ≡ negated binary32 x }
{
    u32::negate(x)
}

#[unsafe(no_mangle)]
pub extern "C" fn ew_classify_f64(x: u64) -> u8
    ensures { result ≡ class_number (classify binary64 x) }
{
    u8::from(u64::classify(x))
}

#[unsafe(no_mangle)]
pub extern "C" fn ew_classify_f32(x: u32) -> u8
    ensures { result ≡ class_number (classify binary32 x) }
{
    u8::from(u32::classify(x))
}

#[unsafe(no_mangle)]
pub extern "C" fn ew_lround_f64(x: u64) -> Whole
    ensures { (result.value ≡ lround_value binary64 x) × (result.refusal ≡ lround_refusal binary64 x) }
{
    rounding::lround::<u64>(x).into()
}

#[unsafe(no_mangle)]
pub extern "C" fn ew_lround_f32(x: u32) -> Whole
    ensures { (result.value ≡ lround_value binary32 x) × (result.refusal ≡ lround_refusal binary32 x) }
{
    rounding::lround::<u32>(x).into()
}

#[unsafe(no_mangle)]
pub extern "C" fn ew_modf_f64(x: u64) -> Patterns64
    ensures { (result.whole ≡ modf_whole binary64 x) × (result.fraction ≡ modf_fraction binary64 x) }
{
    splitting::modf_patterns::<u64>(x).into()
}

#[unsafe(no_mangle)]
pub extern "C" fn ew_modf_f32(x: u32) -> Patterns32
    ensures { (result.whole ≡ modf_whole binary32 x) × (result.fraction ≡ modf_fraction binary32 x) }
{
    splitting::modf_patterns::<u32>(x).into()
}

#[unsafe(no_mangle)]
pub extern "C" fn ew_frexp_f64(x: u64) -> Frexp64
    ensures { (result.fraction ≡ frexp_fraction binary64 x) × (result.exponent ≡ frexp_exponent binary64 x) }
{
    scaling::frexp::<u64>(x).into()
}

#[unsafe(no_mangle)]
pub extern "C" fn ew_frexp_f32(x: u32) -> Frexp32
    ensures { (result.fraction ≡ frexp_fraction binary32 x) × (result.exponent ≡ frexp_exponent binary32 x) }
{
    scaling::frexp::<u32>(x).into()
}

#[unsafe(no_mangle)]
pub extern "C" fn ew_ldexp_f64(x: u64, n: i64) -> Word64
    ensures { (result.word ≡ ldexp binary64 x n) × (result.refusal ≡ ldexp_refusal binary64 x n) }
{
    scaling::ldexp::<u64>(x, n).into()
}

#[unsafe(no_mangle)]
pub extern "C" fn ew_ldexp_f32(x: u32, n: i64) -> Word32
    ensures { (result.word ≡ ldexp binary32 x n) × (result.refusal ≡ ldexp_refusal binary32 x n) }
{
    scaling::ldexp::<u32>(x, n).into()
}

#[unsafe(no_mangle)]
pub extern "C" fn ew_fmod_f64(x: u64, y: u64) -> Word64
    ensures { (result.word ≡ fmod binary64 x y) × (result.refusal ≡ fmod_refusal binary64 x y) }
{
    let answer = remainder::fmod(Double(x), Double(y));
    Word64 {
        word: answer.word.to_word(),
        refusal: answer.number(),
    }
}

#[unsafe(no_mangle)]
pub extern "C" fn ew_fmod_f32(x: u32, y: u32) -> Word32
    ensures { (result.word ≡ fmod binary32 x y) × (result.refusal ≡ fmod_refusal binary32 x y) }
{
    remainder::fmod::<u32>(x, y).into()
}

#[unsafe(no_mangle)]
pub extern "C" fn ew_remainder_f64(x: u64, y: u64) -> Word64
    ensures { (result.word ≡ remainder binary64 x y) × (result.refusal ≡ fmod_refusal binary64 x y) }
{
    nearest_remainder::remainder::<u64>(x, y).into()
}

#[unsafe(no_mangle)]
pub extern "C" fn ew_remainder_f32(x: u32, y: u32) -> Word32
    ensures { (result.word ≡ remainder binary32 x y) × (result.refusal ≡ fmod_refusal binary32 x y) }
{
    nearest_remainder::remainder::<u32>(x, y).into()
}

#[unsafe(no_mangle)]
pub extern "C" fn ew_remquo_f64(x: u64, y: u64) -> Remquo64
    ensures { (result.word ≡ remainder binary64 x y) × (result.quotient ≡ remquo_quotient binary64 x y) × (result.refusal ≡ fmod_refusal binary64 x y) }
{
    nearest_remainder::remquo::<u64>(x, y).into()
}

#[unsafe(no_mangle)]
pub extern "C" fn ew_remquo_f32(x: u32, y: u32) -> Remquo32
    ensures { (result.word ≡ remainder binary32 x y) × (result.quotient ≡ remquo_quotient binary32 x y) × (result.refusal ≡ fmod_refusal binary32 x y) }
{
    nearest_remainder::remquo::<u32>(x, y).into()
}

#[unsafe(no_mangle)]
pub extern "C" fn ew_nextafter_f64(x: u64, y: u64) -> Word64
    ensures { (result.word ≡ nextafter binary64 x y) × (result.refusal ≡ nextafter_refusal binary64 x y) }
{
    ordering::nextafter::<u64>(x, y).into()
}

#[unsafe(no_mangle)]
pub extern "C" fn ew_nextafter_f32(x: u32, y: u32) -> Word32
    ensures { (result.word ≡ nextafter binary32 x y) × (result.refusal ≡ nextafter_refusal binary32 x y) }
{
    ordering::nextafter::<u32>(x, y).into()
}

#[unsafe(no_mangle)]
pub extern "C" fn ew_fmin_f64(x: u64, y: u64) -> u64
    ensures { result ≡ fmin binary64 x y }
{
    ordering::fmin::<u64>(x, y)
}

#[unsafe(no_mangle)]
pub extern "C" fn ew_fmin_f32(x: u32, y: u32) -> u32
    ensures { result ≡ fmin binary32 x y }
{
    ordering::fmin::<u32>(x, y)
}

#[unsafe(no_mangle)]
pub extern "C" fn ew_fmax_f64(x: u64, y: u64) -> u64
    ensures { result ≡ fmax binary64 x y }
{
    ordering::fmax::<u64>(x, y)
}

#[unsafe(no_mangle)]
pub extern "C" fn ew_fmax_f32(x: u32, y: u32) -> u32
    ensures { result ≡ fmax binary32 x y }
{
    ordering::fmax::<u32>(x, y)
}

#[unsafe(no_mangle)]
pub extern "C" fn ew_f16_to_f32(x: u16) -> u32
    ensures { result ≡ converted binary16 binary32 x }
{
    conversion::import(x)
}

#[unsafe(no_mangle)]
pub extern "C" fn ew_f32_to_f16(x: u32) -> Word16
    ensures { (result.word ≡ converted binary32 binary16 x) × (result.refusal ≡ converted_refusal binary32 binary16 x) }
{
    conversion::export(x).into()
}

#[unsafe(no_mangle)]
pub extern "C" fn ew_sheet(text: &[u8], bytes: &mut [u8]) -> SheetAnswer
    ensures { (result ≡ sheet.answer_of (sheet_of text.now (length bytes.old)))
        × (bytes.new ≡ bytes_of (sheet_of text.now (length bytes.old)) bytes.old) }
{
    sheets::sheet(text, bytes)
}

#[unsafe(no_mangle)]
pub extern "C" fn ew_explain(text: &[u8]) -> ExplainAnswer
    ensures { result ≡ explain.answer_of (explain_of text.now) }
{
    explaining::explain(text)
}

// The second part of the contract is demand 3: what a passed sheet promises of this run.
#[unsafe(no_mangle)]
pub extern "C" fn ew_run(text: &[u8], frame: &[u8], words: &mut [u64]) -> RunAnswer
    ensures value { (result ≡ answer_of (run_of text.now frame.now (length words.old)))
        × (words.new ≡ words_of (run_of text.now frame.now (length words.old)) words.old) }
    ensures keeps { (l : List Step) → read_text short text.now ≡ steps l → Keeps l frame.now words.old result words.new }
{
    running::run(text, frame, words)
}

#[unsafe(no_mangle)]
pub extern "C" fn ew_run_lines(text: &[u8], lines: &[u8], answers: &mut [u8]) -> LinesAnswer
    ensures { (result ≡ batch.answer_of (batch_of text.now lines.now (length answers.old)))
        × (answers.new ≡ batch.bytes_of (batch_of text.now lines.now (length answers.old)) answers.old) }
{
    batch::run_lines(text, lines, answers)
}
