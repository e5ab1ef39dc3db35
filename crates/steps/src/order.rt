// The order of doubles and of whole numbers, by their words.
ghost use Rattle.std.specs.Prelude.{◌≡◌};
ghost use Rattle.recipe.specs.Text.{double_above, whole_above};
ghost use Rattle.steps.specs.Order.{biased};

use float_format::Pattern;

// Whether p's double is above q's: ranks compare as the numbers do.
pub fn double_above(p: u64, q: u64) -> bool
    ensures { result ≡ double_above p q }
{
    q.rank() < p.rank()
}

// The whole number's distance from the smallest, which compares as the numbers do.
fn above_least(p: u64) -> u64
    ensures { result ≡ biased p }
{
    if p < 0x8000_0000_0000_0000 {
        p + 0x8000_0000_0000_0000
    } else {
        p - 0x8000_0000_0000_0000
    }
}

// Whether p's whole number is above q's.
pub fn whole_above(p: u64, q: u64) -> bool
    ensures { result ≡ whole_above p q }
{
    above_least(q) < above_least(p)
}
