// States of a guard: with n flags, the numbers below 2^n.
ghost use Rattle.std.specs.Prelude.{◌≡◌, ◌^◌, ◌<◌, ltb};
ghost use Rattle.ground.specs.Bits.{bit};
ghost use Rattle.truth.specs.clauses.Words.{word_bits};

// Whether a number is a state of so many flags.
pub fn is_state(number: u64, flags: usize) -> bool
    requires { flags < word_bits }
    ensures { result ≡ ltb number (2 ^ flags) }
{
    number >> flags == 0
}

// Whether bit i of a word is set: with n flags, flag n - i is true in a state.
pub fn is_set(word: u64, i: usize) -> bool
    requires { i < word_bits }
    ensures { result ≡ bit word i }
{
    (word >> i) % 2 == 1
}
