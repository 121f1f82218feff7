//! Machine words as sets of the numbers below 64.
ghost use Rattle.std.specs.Prelude.{◌≡◌, ℕ, ◌<◌, ◌==◌, ◌||◌};
ghost use Rattle.jo_ids.specs.Words.{in_word};

/// Whether the number is in the word.
pub fn has_bit(word: u64, bit: u32) -> bool
    requires { bit < 64 }
    ensures { result ≡ in_word word bit }
{
    (word >> bit) & 1 == 1
}

/// The word with the number added.
pub fn with_bit(word: u64, bit: u32) -> u64
    requires { bit < 64 }
    ensures { (i : ℕ) → in_word result i ≡ (in_word word i || i == bit) }
{
    word | (1 << bit)
}
