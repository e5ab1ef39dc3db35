// Numbers as lower-case hexadecimal digits: read from text, and written to it.
#![tactic(auto)]

ghost use Rattle.std.specs.Prelude.{◌≡◌, ◌<◌, length};
ghost use Rattle.hexadecimal.specs.Hex.{digit_of, word_field, glyph_of, digits};

// The digit's value, and 16 of any other byte. The distances from `0` and from `a` wrap at 256, so that one comparison tells each row of
// digits, and nothing branches on the byte: digits and letters come in no order that a processor could foresee.
fn digit(b: u8) -> u64
    ensures { result ≡ digit_of b }
{
    let x = b as u64;
    let n = (x + 208) % 256;
    let l = (x + 159) % 256;
    let letter = l + 10;
    let other = if l < 6 { letter } else { 16 };
    if n < 10 { n } else { other }
}

// The number that the digits of s make, if all of its bytes are digits. More than 16 make none, since a word may have no room for their value.
pub fn read(s: &[u8]) -> Option<u64>
    ensures { result ≡ word_field s.now }
{
    if s.len() > 16 {
        return None;
    }
    let mut value: u64 = 0;
    for b in s {
        let d = digit(*b);
        if d > 15 {
            return None;
        }
        value = value * 16 + d;
    }
    Some(value)
}

// The digit of the value d, without a test: from ten on, (d + 6) / 16 is 1, and the letters stand 39 places after where the figures would go
// on. A test for each digit keeps the compiler from working several at a time.
fn glyph(d: u64) -> u8
    requires { d < 16 }
    ensures { result ≡ glyph_of d }
{
    (48 + d + (d + 6) / 16 * 39) as u8
}

// Fills out with the last digits of n, as many as it has room for.
pub fn write(n: u64, out: &mut [u8])
    ensures { out.new ≡ digits (length out.old) n }
{
    let mut rest = n;
    for i in (0..out.len()).rev() {
        out[i] = glyph(rest % 16);
        rest /= 16;
    }
}
