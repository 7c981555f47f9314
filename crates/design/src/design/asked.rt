ghost use Rattle.std.specs.Prelude.{◌≡◌, length};
ghost use Rattle.classes.specs.Meaning.{width_of};
ghost use Rattle.code.specs.Meaning.{columns_of};
ghost use Rattle.design.specs.Meaning.{class_of, code_of};

use crate::design::Design;
use crate::duty::Duty;
use classes::Mixed;
use code::Code;

impl Design {
    pub fn code(&self) -> &Code
        ensures { result.now ≡ code_of self.now }
    {
        &self.code
    }

    // The errors that are named for a duty. That they are as wide as the code is known of every design.
    pub fn class(&self, duty: Duty) -> &Mixed
        ensures value { result.now ≡ class_of self.now duty }
        ensures fits { width_of result.now ≡ length (columns_of (code_of self.now)) }
    {
        match duty {
            Duty::Correct => &self.first,
            Duty::Detect => &self.second,
        }
    }
}
