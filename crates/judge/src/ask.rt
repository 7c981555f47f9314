ghost use Rattle.std.specs.Prelude.{◌≡◌, ◌^◌, ◌<◌, length, slice_index};
ghost use Rattle.code.specs.Codes.{syndrome};
ghost use Rattle.code.specs.Meaning.{columns_of, data_of};
ghost use Rattle.code.specs.Words.{gather};

use classes::ErrorClass;
use code::Code;

// Questions whose refusals are ruled out beforehand, so that the loops that ask them stay short.

// The pattern at a number below the count.
pub(crate) fn pattern<C: ErrorClass>(class: &C, i: usize) -> u64
    requires { i < length (C.ErrorClass.patterns class.now) }
    ensures { result ≡ slice_index (C.ErrorClass.patterns class.now) i }
{
    class.pattern_at(i).unwrap()
}

// The syndrome of a word of n bits.
pub(crate) fn syndrome_of(code: &Code, word: u64) -> u64
    requires { word < 2 ^ length (columns_of code.now) }
    ensures { result ≡ syndrome (columns_of code.now) word }
{
    code.syndrome(word).unwrap()
}

// The data bits of a word of n bits.
pub(crate) fn data_bits_of(code: &Code, word: u64) -> u64
    requires { word < 2 ^ length (columns_of code.now) }
    ensures { result ≡ gather (data_of code.now) word }
{
    code.data_bits(word).unwrap()
}
