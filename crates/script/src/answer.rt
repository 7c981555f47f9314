ghost use Rattle.std.specs.Prelude.{◌≡◌, IfOk, string_bytes};
ghost use Rattle.code.specs.Meaning.{columns_of, data_of};
ghost use Rattle.script.specs.Replies.{data_text, encode_text, show_text, syndrome_text};

use crate::question::Question;
use crate::reply::word_line;
use code::Code;
use picture::matrix_picture;
use report::{wide_data_word_line, wide_word_line};
use std::alloc::{AllocError, Global};

// What the lab says of a word, for a code. Each question has its own function: its call of the code, the
// number of its bits and what a word that is too wide is told all differ.

pub(crate) fn encode_answer(heap: Global, code: &Code, word: u64) -> Result<String, AllocError>
    ensures { IfOk result (λ t. string_bytes t ≡ encode_text (columns_of code.now) (data_of code.now) word) }
{
    match code.encode(word) {
        Ok(codeword) => word_line(heap, Question::Encode, word, codeword, code.column_count()),
        Err(refusal) => wide_data_word_line(heap, refusal, word, code.data_count()),
    }
}

pub(crate) fn syndrome_answer(heap: Global, code: &Code, word: u64) -> Result<String, AllocError>
    ensures { IfOk result (λ t. string_bytes t ≡ syndrome_text (columns_of code.now) (data_of code.now) word) }
{
    match code.syndrome(word) {
        Ok(syndrome) => word_line(heap, Question::Syndrome, word, syndrome, code.check_count()),
        Err(refusal) => wide_word_line(heap, refusal, word, code.column_count()),
    }
}

pub(crate) fn data_answer(heap: Global, code: &Code, word: u64) -> Result<String, AllocError>
    ensures { IfOk result (λ t. string_bytes t ≡ data_text (columns_of code.now) (data_of code.now) word) }
{
    match code.data_bits(word) {
        Ok(message) => word_line(heap, Question::Data, word, message, code.data_count()),
        Err(refusal) => wide_word_line(heap, refusal, word, code.column_count()),
    }
}

// The matrix drawn back.
pub(crate) fn show_answer(heap: Global, code: &Code) -> Result<String, AllocError>
    ensures { IfOk result (λ t. string_bytes t ≡ show_text (columns_of code.now) (data_of code.now)) }
{
    matrix_picture(
        heap,
        code.column_values(),
        code.data_columns(),
        code.check_count(),
    )
}
