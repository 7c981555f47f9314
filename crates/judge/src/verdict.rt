ghost use Rattle.std.specs.Prelude.{◌≡◌, ◌^◌, ◌<◌, length};
ghost use Rattle.code.specs.Meaning.{columns_of, data_of};
ghost use Rattle.judge.specs.Verdicts.{Judged, NoFalseVerdict, clash_refusal, verdict};

use crate::ask::data_bits_of;
use crate::search::{Rivals, search};
use classes::ErrorClass;
use code::{Clash, Code, Refusal};

// Judges a design: a code, the errors that it is to correct, and the errors that it is to flag. Accepts it
// with the length of its line-up, or refuses it with its first clash: 6 if both patterns are to be corrected,
// 7 if the later one is to be flagged. Before that it refuses 8 if a class has another width than the code.
pub fn judge<C: ErrorClass, D: ErrorClass>(
    code: &Code,
    first: &C,
    second: &D,
) -> Result<usize, Refusal>
    ensures value { result ≡ verdict (columns_of code.now) (data_of code.now) (C.ErrorClass.wide first.now) (C.ErrorClass.patterns first.now) (D.ErrorClass.wide second.now) (D.ErrorClass.patterns second.now) }
    ensures judged { Judged (columns_of code.now) (data_of code.now) (C.ErrorClass.wide first.now) (C.ErrorClass.patterns first.now) (D.ErrorClass.wide second.now) (D.ErrorClass.patterns second.now) result }
    ensures exact { NoFalseVerdict (columns_of code.now) (data_of code.now) (C.ErrorClass.wide first.now) (C.ErrorClass.patterns first.now) (D.ErrorClass.wide second.now) (D.ErrorClass.patterns second.now) result }
{
    let n = code.column_count();
    if first.width() != n || second.width() != n {
        return Err(Refusal::WidthsDiffer);
    }
    match search(code, first, second) {
        Ok(places) => Ok(places),
        Err(rivals) => Err(clash_of(code, first, rivals)),
    }
}

// The refusal for two rival patterns, with the data words that show the clash.
fn clash_of<C: ErrorClass>(code: &Code, first: &C, rivals: Rivals) -> Refusal
    requires earlier { rivals.earlier < 2 ^ length (columns_of code.now) }
    requires later { rivals.later < 2 ^ length (columns_of code.now) }
    ensures { result ≡ clash_refusal (data_of code.now) (C.ErrorClass.patterns first.now) rivals.earlier rivals.later }
{
    let clash = Clash {
        earlier: rivals.earlier,
        later: rivals.later,
        first: 0,
        second: data_bits_of(code, rivals.earlier ^ rivals.later),
    };
    if first.belongs(rivals.later) {
        Refusal::CorrectableClash(clash)
    } else {
        Refusal::DetectableClash(clash)
    }
}
