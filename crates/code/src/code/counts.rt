ghost use Rattle.std.specs.Prelude.{◌≡◌, length};
ghost use Rattle.code.specs.Codes.{rows};
ghost use Rattle.code.specs.Meaning.{columns_of, data_of};

use crate::code::Code;

impl Code {
    // How many columns there are: the width n of a code word.
    pub fn column_count(&self) -> usize
        ensures { result ≡ length (columns_of self.now) }
    {
        self.column_values().len()
    }

    // How many data columns there are: the width k of a data word.
    pub fn data_count(&self) -> usize
        ensures { result ≡ length (data_of self.now) }
    {
        self.data_columns().len()
    }

    // How many rows, and so check columns, there are: the width r of a syndrome.
    pub fn check_count(&self) -> usize
        ensures { result ≡ rows (columns_of self.now) (data_of self.now) }
    {
        self.column_count() - self.data_count()
    }
}
