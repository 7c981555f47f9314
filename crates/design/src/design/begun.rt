ghost use Rattle.design.specs.Meaning.{Begun};

use crate::design::Design;
use classes::Mixed;
use code::Code;

impl Design {
    // The code with no errors named.
    pub fn new(code: Code) -> Design
        ensures { Begun code result }
    {
        // a class may be as wide as any code
        let none = Mixed::open(code.column_count(), &[]).unwrap();
        Design {
            code,
            first: none,
            second: none,
        }
    }
}
