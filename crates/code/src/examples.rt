ghost use Rattle.std.specs.Prelude.{◌≡◌, Ok};
ghost use Rattle.code.specs.Laws.{WorkedExamples};

use crate::code::Code;
use crate::refusal::Refusal;

// The code words of 1 and of 15 in the code with column values 3, 5, 6, 7, 1, 2, 4 and data columns 0 to 3.
pub fn worked_examples() -> Result<(u64, u64), Refusal>
    ensures value { result ≡ Ok (49, 127) }
    ensures definitions { WorkedExamples }
{
    let code = Code::open(&[3, 5, 6, 7, 1, 2, 4], &[0, 1, 2, 3])?;
    Ok((code.encode(1)?, code.encode(15)?))
}
