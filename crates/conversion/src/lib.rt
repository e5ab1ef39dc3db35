// Halves and singles: binary16 taken to binary32 exactly, and back, rounded once (document 02, W-201).
#![tactic(auto)]

ghost use Rattle.std.specs.Prelude.{◌≡◌};
ghost use Rattle.float_format.specs.Format.{binary16, binary32};
ghost use Rattle.float_format.specs.Refusals.{refusal_number};
ghost use Rattle.conversion.specs.Conversion.{converted, converted_refusal};

use float_format::width::shifted;
use float_format::{Refusal, Word};
use table::subnormal;

mod table;

// A half as an f32, exactly: a subnormal by the table, a normal number by its field moved up by 112.
//
// Special cases are: infinities are kept; NaN keeps its sign and its payload, quieted.
pub fn import(x: u16) -> u32
    ensures { result ≡ converted binary16 binary32 x }
{
    let a = x % 0x8000;
    let sign = ((x - a) as u32) * 0x1_0000;
    if a < 0x400 {
        return sign + subnormal(a);
    }
    let moved = (a as u32) * 0x2000;
    if a < 0x7c00 {
        return sign + (moved + 0x3800_0000);
    }
    if a == 0x7c00 {
        return sign + 0x7f80_0000;
    }
    (sign + (moved + 0x7000_0000)) | 0x0040_0000
}

// An f32 as a half, rounded once, halves to even.
//
// Special cases are: infinities are kept; NaN keeps its sign and the top of its payload, quieted.
//
// Refuses 3 where x is finite and 65,520 or more in magnitude: the infinity of x's sign.
pub fn export(x: u32) -> Word<u16>
    ensures { (result.word ≡ converted binary32 binary16 x) × (refusal_number result.refusal ≡ converted_refusal binary32 binary16 x) }
{
    let a = x % 0x8000_0000;
    let sign = ((x - a) / 0x1_0000) as u16;
    if a > 0x7f80_0000 {
        let payload = ((a - 0x7f80_0000) / 0x2000) as u16;
        return Word::of((sign + (0x7c00 + payload)) | 0x0200);
    }
    if a == 0x7f80_0000 {
        return Word::of(sign + 0x7c00);
    }
    if a >= 0x477f_f000 {
        return Word {
            word: sign + 0x7c00,
            refusal: Some(Refusal::OutOfRange),
        };
    }
    if a >= 0x3880_0000 {
        let odd = a / 0x2000 % 2;
        let rounded = (a - 0x3800_0000 + (0xfff + odd)) / 0x2000;
        return Word::of(sign + rounded as u16);
    }
    if a < 0x3300_0000 {
        return Word::of(sign);
    }
    let m = (0x0080_0000 + a % 0x0080_0000) as u64;
    let d = (126 - a / 0x0080_0000) as u64;
    let small = shifted(23, m, d);
    Word::of(sign + small as u16)
}
