ghost use Rattle.std.specs.Prelude.{◌≡◌, ℕ, ◌^◌, ◌<◌, ◌≤◌, length, map, slice_index, MatchResult};
ghost use Rattle.code.specs.Words.{combine, gather, place, weight};
ghost use Rattle.code.specs.declared.refusal.Refusal.TheVariants.{TooWide};

use crate::refusal::Refusal;

// The weight of a column in a word, 2 to its number; from column 64 on there is none. So it is also the
// first number that so many columns do not hold.
pub fn weight(column: usize) -> u64
    ensures value { result ≡ weight column }
    ensures power { column < 64 → result ≡ 2 ^ column }
{
    if column < 64 { 1 << column } else { 0 }
}

// Refuses a word with a bit beyond the width.
pub(crate) fn fits(word: u64, width: usize) -> Result<(), Refusal>
    requires { width < 64 }
    ensures { MatchResult result (λ _. word < 2 ^ width) (λ e. (2 ^ width ≤ word) × (e ≡ TooWide)) }
{
    if word >= weight(width) {
        return Err(Refusal::TooWide);
    }
    Ok(())
}

// The xor of what the items at the one bits of the word are worth: a step for each one bit, the lowest first.
// An error pattern has few ones, so this is a loop over them and not a chain over the items.
fn xor_of_ones<T: Copy, F: Fn(T) -> u64>(items: &[T], word: u64, worth: F) -> u64
    requires fit { word < 2 ^ length items.now }
    requires can { F.IsAlwaysCallable worth }
    ensures { (of : T → ℕ) → ((x : T) (r : ℕ) → F.post worth x r → r ≡ of x) → result ≡ combine (map of items.now) word }
{
    let mut rest = word;
    let mut sum = 0;
    while rest != 0 {
        let j = rest.trailing_zeros() as usize;
        sum ^= worth(items[j]);
        rest &= rest - 1;
    }
    sum
}

// The xor of the values whose bit in the word is one.
pub(crate) fn combined(values: &[u64], word: u64) -> u64
    requires { word < 2 ^ length values.now }
    ensures { result ≡ combine values.now word }
{
    xor_of_ones(values, word, |value| value)
}

// The word with bit i of `bits` at the i-th place.
pub(crate) fn placed(places: &[usize], bits: u64) -> u64
    requires fit { bits < 2 ^ length places.now }
    requires inside { (i : ℕ) → i < length places.now → slice_index places.now i < 64 }
    ensures { result ≡ place places.now bits }
{
    xor_of_ones(places, bits, weight)
}

// The bits of the word at the places, the first as bit 0.
pub(crate) fn gathered(places: &[usize], word: u64) -> u64
    requires few { length places.now ≤ 64 }
    requires inside { (i : ℕ) → i < length places.now → slice_index places.now i < 64 }
    ensures { result ≡ gather places.now word }
{
    let mut bits = 0;
    for place in places.iter().rev() {
        bits = bits * 2 + (word >> *place) % 2;
    }
    bits
}
