ghost use Rattle.code.specs.Meaning.{Opened, OpenedRightly};

use crate::code::Code;
use crate::layout::Drawn;
use crate::refusal::Refusal;
use crate::short::Short;

impl Code {
    // A code from its column values and its data column numbers.
    pub fn open(values: &[u64], numbers: &[usize]) -> Result<Code, Refusal>
        ensures value { Opened values.now numbers.now result }
        ensures meaning { OpenedRightly values.now numbers.now result }
    {
        let drawn = Drawn::new(values, numbers)?;
        drawn.check_values()?;
        let checks = drawn.check_columns()?;
        Ok(Code {
            values: Short::from_slice(values, 0).unwrap(),
            message: Short::from_slice(numbers, 0).unwrap(),
            checks,
        })
    }
}
