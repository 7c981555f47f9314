ghost use Rattle.std.specs.Prelude.{◌≡◌, length};
ghost use Rattle.classes.specs.Duties.{detectable, Detects};

use crate::class::ErrorClass;
use crate::patterns::patterns_of;

// How many patterns of the second class are to be flagged and not to be corrected: those that are not in the
// first class. It asks any two classes by what every class shows.
pub fn detectable_count<C: ErrorClass, D: ErrorClass>(first: &C, second: &D) -> usize
    ensures value { result ≡ length (detectable (C.ErrorClass.patterns first.now) (D.ErrorClass.patterns second.now)) }
    ensures detects { Detects (D.ErrorClass.wide second.now) (C.ErrorClass.patterns first.now) (D.ErrorClass.patterns second.now) }
{
    patterns_of(second)
        .filter(|pattern| !first.belongs(*pattern))
        .count()
}
