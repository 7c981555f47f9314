ghost use Rattle.std.specs.Prelude.{◌≡◌, length, IfOk};
ghost use Rattle.code.specs.Meaning.{columns_of, data_of};
ghost use Rattle.judge.specs.Decoding.{Decodes, DecodesEncoded, decoding, taken};

use crate::ask::{data_bits_of, syndrome_of};
use crate::decoded::Decoded;
use crate::line::front_pattern;
use classes::ErrorClass;
use code::{Code, Refusal};

// Takes the first pattern with the word's syndrome, from the empty pattern and then the class, and answers
// the data bits of the word with that pattern undone; where there is none, a flag. It refuses 8 for a class of
// another width than the code, and then 10 for a word with a bit beyond the columns.
pub fn decode<C: ErrorClass>(code: &Code, class: &C, word: u64) -> Result<Decoded, Refusal>
    ensures value { result ≡ decoding (columns_of code.now) (data_of code.now) (C.ErrorClass.wide class.now) (C.ErrorClass.patterns class.now) word }
    ensures tells { IfOk result (λ d. Decodes (columns_of code.now) (data_of code.now) (C.ErrorClass.patterns class.now) word d) }
    ensures back { DecodesEncoded (columns_of code.now) (data_of code.now) (C.ErrorClass.patterns class.now) }
{
    if class.width() != code.column_count() {
        return Err(Refusal::WidthsDiffer);
    }
    let syndrome = code.syndrome(word)?;
    match taken_for(code, class, syndrome) {
        Some(pattern) => Ok(Decoded::Data {
            word: data_bits_of(code, word ^ pattern),
            pattern,
        }),
        None => Ok(Decoded::Flag),
    }
}

// The pattern that decoding takes for a syndrome.
fn taken_for<C: ErrorClass>(code: &Code, class: &C, syndrome: u64) -> Option<u64>
    requires { C.ErrorClass.wide class.now ≡ length (columns_of code.now) }
    ensures { result ≡ taken (columns_of code.now) (C.ErrorClass.patterns class.now) syndrome }
{
    for place in 0..class.count() + 1 {
        let pattern = front_pattern(class, place);
        if syndrome_of(code, pattern) == syndrome {
            return Some(pattern);
        }
    }
    None
}
