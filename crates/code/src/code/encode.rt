ghost use Rattle.std.specs.Prelude.{◌≡◌, length};
ghost use Rattle.code.specs.Codes.{encoding};
ghost use Rattle.code.specs.Words.{gather};
ghost use Rattle.code.specs.Laws.{OneCodeword, OneDataWord, ReadsBack};
ghost use Rattle.code.specs.Meaning.{columns_of, data_of, within};

use crate::code::Code;
use crate::refusal::Refusal;
use crate::words::{combined, fits, gathered, placed};

impl Code {
    // The one code word with these data bits.
    pub fn encode(&self, word: u64) -> Result<u64, Refusal>
        ensures value { result ≡ within (length (data_of self.now)) word (encoding (columns_of self.now) (data_of self.now) word) }
        ensures one { OneCodeword (columns_of self.now) (data_of self.now) }
    {
        fits(word, self.data_count())?;
        let carried = placed(self.data_columns(), word);
        let syndrome = combined(self.column_values(), carried);
        Ok(carried ^ placed(self.check_columns(), syndrome))
    }

    // The bits of a word in the data columns.
    pub fn data_bits(&self, word: u64) -> Result<u64, Refusal>
        ensures value { result ≡ within (length (columns_of self.now)) word (gather (data_of self.now) word) }
        ensures one { OneDataWord (columns_of self.now) (data_of self.now) }
        ensures back { ReadsBack (columns_of self.now) (data_of self.now) }
    {
        fits(word, self.column_count())?;
        Ok(gathered(self.data_columns(), word))
    }
}
