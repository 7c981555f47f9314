ghost use Rattle.std.specs.Prelude.{◌≡◌, ℕ, ◌^◌, ◌<◌, Ok, decimal};
ghost use Rattle.script.specs.Numerals.{Reads};

use crate::fault::Fault;

// A decimal number of at most 64 bits, with no sign.
pub(crate) fn number(word: &str) -> Result<u64, Fault<'_>>
    ensures reads { Reads word.now result }
    ensures back { (n : ℕ) → n < 2 ^ 64 → word.now ≡ decimal n → result ≡ Ok n }
{
    if word.starts_with('+') {
        return Err(Fault::NotNumber(word));
    }
    word.parse().map_err(|_| Fault::NotNumber(word))
}
