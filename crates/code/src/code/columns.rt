ghost use Rattle.std.specs.Prelude.{◌≡◌};
ghost use Rattle.code.specs.Codes.{Wellformed, check_columns};
ghost use Rattle.code.specs.Meaning.{columns_of, data_of};

use crate::code::Code;

impl Code {
    // The value of each column. That the columns make a code is known of every code value.
    pub fn column_values(&self) -> &[u64]
        ensures value { result.now ≡ columns_of self.now }
        ensures wellformed { Wellformed (columns_of self.now) (data_of self.now) }
    {
        self.values.as_slice()
    }

    // The data column numbers, rising.
    pub fn data_columns(&self) -> &[usize]
        ensures { result.now ≡ data_of self.now }
    {
        self.message.as_slice()
    }

    // The check column of each row.
    pub(crate) fn check_columns(&self) -> &[usize]
        ensures { result.now ≡ check_columns (columns_of self.now) (data_of self.now) }
    {
        self.checks.as_slice()
    }
}
