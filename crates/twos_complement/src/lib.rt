// Whole numbers of 64 bits and the words that hold them, in two's complement.
#![tactic(auto)]

ghost use Rattle.std.specs.Prelude.{◌≡◌};
ghost use Rattle.std.specs.Int.{w64};
ghost use Rattle.std.proofs.Common.{of_z, to_z};

// The number that a word holds.
pub fn signed(w: u64) -> i64
    ensures { result ≡ to_z w64 w }
{
    w.cast_signed()
}

// The word that holds a number.
pub fn word(z: i64) -> u64
    ensures { result ≡ of_z w64 z }
{
    z.cast_unsigned()
}
