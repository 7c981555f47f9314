ghost use Rattle.std.specs.Prelude.{◌≡◌, length};
ghost use Rattle.classes.specs.Meaning.{width_of};
ghost use Rattle.code.specs.Meaning.{columns_of};

use classes::Mixed;
use code::Code;

mod asked;
mod begun;
mod more;

// A code and the errors that are named for it. Both classes have the width of the code.
#[derive(Clone, Copy)]
pub struct Design {
    code: Code,
    // the errors to correct
    first: Mixed,
    // the errors to flag
    second: Mixed,
    ghost correctable: { width_of first ≡ length (columns_of code) },
    ghost flagged: { width_of second ≡ length (columns_of code) },
}
