ghost use Rattle.std.specs.Prelude.{◌≡◌, ◌+◌, IfOk, string_bytes};
ghost use Rattle.code.specs.Words.{bit};
ghost use Rattle.picture.specs.Drawn.{drawn, value_drawn};

use std::alloc::{AllocError, Global};

// Bit `i` of a number. Past its 64 bits there are only zeros.
pub(crate) fn bit_of(value: u64, i: usize) -> u64
    ensures { result ≡ bit value i }
{
    if i < 64 { (value >> i) % 2 } else { 0 }
}

// Bit `j` of a word as a character.
fn digit_of(word: u64, j: usize) -> char
    ensures { result ≡ 48 + bit word j }
{
    if bit_of(word, j) == 1 { '1' } else { '0' }
}

// The lowest `count` bits of a word as they stand in the columns: bit 0 is drawn left.
pub fn bits_text(heap: Global, word: u64, count: usize) -> Result<String, AllocError>
    ensures { IfOk result (λ t. string_bytes t ≡ drawn count word) }
{
    (0..count).map(|j| digit_of(word, j)).collect(heap)
}

// A number with its bits, so many of them, and what they belong to, as `6 (rows 011)`.
pub fn value_text(
    heap: Global,
    value: u64,
    places: &'static str,
    count: usize,
) -> Result<String, AllocError>
    ensures { IfOk result (λ t. string_bytes t ≡ value_drawn places.now count value) }
{
    let bits = bits_text(heap, value, count)?;
    format!(in heap; "{value} ({places} {bits})")
}
