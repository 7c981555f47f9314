ghost use Rattle.std.specs.Prelude.{◌≡◌, IfOk, IfErr, None, OnOk};
ghost use Rattle.std.specs.Str.{chars};
ghost use Rattle.script.specs.Rows.{Unread, is_digit, row_digits, stranger};

use crate::fault::Fault;
use std::alloc::{AllocError, Global};

// The digits of a drawn row, column 0 first; white space between them says nothing.
pub(crate) fn row_bits(heap: Global, text: &str) -> Result<Vec<bool>, Fault<'static>>
    ensures digits { IfOk result (λ v. v.items ≡ row_digits (chars text.now)) }
    ensures clean { OnOk result (stranger (chars text.now) ≡ None) }
    ensures why { IfErr result (λ e. Unread (chars text.now) e) }
{
    match stranger(text) {
        Some(c) => Err(Fault::NotBit(c)),
        None => Ok(digits(heap, text)?),
    }
}

fn is_digit(c: char) -> bool
    ensures { result ≡ is_digit c }
{
    matches!(c, '0' | '1')
}

// The first character that has no place in a row.
fn stranger(text: &str) -> Option<char>
    ensures { result ≡ stranger (chars text.now) }
{
    text.chars().find(|c| !is_digit(*c) && !c.is_whitespace())
}

fn digits(heap: Global, text: &str) -> Result<Vec<bool>, AllocError>
    ensures { IfOk result (λ v. v.items ≡ row_digits (chars text.now)) }
{
    text.chars()
        .filter(|c| is_digit(*c))
        .map(|c| c == '1')
        .collect(heap)
}
