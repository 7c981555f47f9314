ghost use Rattle.std.specs.Prelude.{◌≡◌, length};
ghost use Rattle.code.specs.Codes.{syndrome};
ghost use Rattle.code.specs.Laws.{Linear, SyndromesFit};
ghost use Rattle.code.specs.Meaning.{columns_of, data_of, within};

use crate::code::Code;
use crate::refusal::Refusal;
use crate::words::{combined, fits};

impl Code {
    // The xor of the values of the columns whose bit in the word is one.
    pub fn syndrome(&self, word: u64) -> Result<u64, Refusal>
        ensures value { result ≡ within (length (columns_of self.now)) word (syndrome (columns_of self.now) word) }
        ensures linear { Linear (columns_of self.now) }
        ensures fits { SyndromesFit (columns_of self.now) (data_of self.now) }
    {
        fits(word, self.column_count())?;
        Ok(combined(self.column_values(), word))
    }
}
