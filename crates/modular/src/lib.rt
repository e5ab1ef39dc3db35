// Products and powers of two modulo a number, in words of 64 bits: what is left of a number whose exponent lies far above its divisor's.
//
// m * 2^n modulo a number takes as many turns as n has binary digits, when the power is worked out by squaring. A product of two residues of 56 bits
// does not fit a word, so it is taken in two halves of 28 bits. Each half is reduced by an estimate of its quotient, from the leading bits of the
// residue and a reciprocal of the modulus's leading bits, that is at most one too small. What the estimate leaves is below twice the modulus, so
// that it is known from the products' low words alone.
#![tactic(auto)]

ghost use Rattle.std.specs.Prelude.{◌≡◌, ◌+◌, ◌*◌, ◌/◌, ◌%◌, ◌^◌, ◌<◌, ◌≤◌};
ghost use Rattle.modular.specs.Modulus.{Modulus};

use float_format::width::{leading_shift, power};

// What products are taken modulo, with its reciprocal. In the methods, a residue is a number below it.
#[derive(Clone, Copy)]
struct Divisor {
    number: u64,
    inverse: u64,
    ghost formed: { Modulus number inverse },
}

impl Divisor {
    fn of(number: u64) -> Divisor
        requires { (2 ^ 55 ≤ number) × (number < 2 ^ 56) }
        ensures { result.number ≡ number }
    {
        let inverse = 0x8000_0000_0000_0000 / ((number >> 24) + 1);
        Divisor { number, inverse }
    }

    // The residue of a number that one subtraction makes one.
    fn less_once(self, n: u64) -> u64
        requires { n < 2 * self.number }
        ensures { result ≡ n % self.number }
    {
        if n >= self.number { n - self.number } else { n }
    }

    // The residue of x * y, of a residue and a half of one.
    fn half_product(self, x: u64, y: u64) -> u64
        requires { (x < self.number) × (y ≤ 2 ^ 28) }
        ensures { result ≡ x * y % self.number }
    {
        let high = ((x >> 25) * y) >> 28;
        let quotient = (high * self.inverse) >> 34;
        let left = x
            .wrapping_mul(y)
            .wrapping_sub(self.number.wrapping_mul(quotient));
        self.less_once(left)
    }

    // The residue of x * y, of two residues.
    fn product(self, x: u64, y: u64) -> u64
        requires { (x < self.number) × (y < self.number) }
        ensures { result ≡ x * y % self.number }
    {
        let high = self.half_product(x, y >> 28);
        let low = self.half_product(x, y % 0x1000_0000);
        self.less_once(self.half_product(high, 0x1000_0000) + low)
    }

    // The residue of x * 2^digit, of a residue and a binary digit.
    fn appended(self, x: u64, digit: u64) -> u64
        requires { (x < self.number) × (digit < 2) }
        ensures { result ≡ x * 2 ^ digit % self.number }
    {
        self.less_once(x << digit)
    }

    // The residue of 2^n. From the leading digits of n on, each digit more squares the power, and doubles it where it is 1.
    fn power_of_two(self, n: u64) -> u64
        ensures { result ≡ 2 ^ n % self.number }
    {
        let past = digits_past(n);
        let mut r = power(n >> past);
        for k in (0..past).rev() {
            r = self.appended(self.product(r, r), (n >> k) % 2);
        }
        r
    }
}

// How many of n's last binary digits are left out for 2^n to be below every modulus: all but six, or all but five.
fn digits_past(n: u64) -> u64
    ensures { (result < 64) × (n / 2 ^ result ≤ 54) }
{
    let most = 54;
    let k = 58_u64.saturating_sub(n.leading_zeros() as u64);
    if n >> k > most { k + 1 } else { k }
}

// m * 2^n % (8 * w): what is left of m * 2^n by w, and with it the last three binary digits of the quotient.
pub fn scaled_remainder(m: u64, n: u64, w: u64) -> u64
    requires { (m < 2 ^ 53) × (n < 2 ^ 63) × (0 < w) × (w < 2 ^ 53) }
    ensures { result ≡ m * 2 ^ n % (8 * w) }
{
    let k = leading_shift(55, w);
    let divisor = Divisor::of(w << k);
    let scale = divisor.power_of_two(n + k - 3);
    divisor.product(m, scale) >> (k - 3)
}
