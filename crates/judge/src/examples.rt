ghost use Rattle.std.specs.Prelude.{◌≡◌, Ok};
ghost use Rattle.judge.specs.Examples.{WorkedVerdicts};

use crate::verdict::judge;
use classes::{Mixed, Random};
use code::{Code, Refusal};

// The verdict on the code with column values 3, 5, 6, 7, 1, 2, 4 and data columns 0 to 3, single errors to
// be corrected and none to be flagged. Its contract has all worked verdicts of the definitions.
pub fn worked_verdict() -> Result<usize, Refusal>
    ensures value { result ≡ Ok 8 }
    ensures definitions { WorkedVerdicts }
{
    let code = Code::open(&[3, 5, 6, 7, 1, 2, 4], &[0, 1, 2, 3])?;
    let single = Random::open(7, 1)?;
    let none = Mixed::open(7, &[])?;
    judge(&code, &single, &none)
}
