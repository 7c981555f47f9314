ghost use Rattle.std.specs.Prelude.{◌≡◌, ◌+◌, ◌<◌, ◌≤◌, not, ◌||◌, ◌∷◌, ◌++◌, length, nat_lt, slice_index};
ghost use Rattle.code.specs.Search.{among};

use crate::ask::pattern;
use classes::ErrorClass;

// The line-up without making it: the empty pattern, then the first class, then the second, from which
// the patterns of the first are left out.

// The pattern at a place of the empty pattern and the first class.
pub(crate) fn front_pattern<C: ErrorClass>(first: &C, place: usize) -> u64
    requires { place < length (C.ErrorClass.patterns first.now) + 1 }
    ensures { result ≡ slice_index (0 ∷ C.ErrorClass.patterns first.now) place }
{
    if place == 0 {
        0
    } else {
        pattern(first, place - 1)
    }
}

// The candidate with a number: the empty pattern and both classes are gone over by it. Of the front it is the place.
pub(crate) fn candidate<C: ErrorClass, D: ErrorClass>(first: &C, second: &D, number: usize) -> u64
    requires { number < length (C.ErrorClass.patterns first.now) + 1 + length (D.ErrorClass.patterns second.now) }
    ensures { result ≡ slice_index (0 ∷ (C.ErrorClass.patterns first.now ++ D.ErrorClass.patterns second.now)) number }
{
    let front = first.count() + 1;
    if number < front {
        front_pattern(first, number)
    } else {
        pattern(second, number - front)
    }
}

// Whether the candidate with the number stands in the line-up: it comes from the front, or the first class does
// not have it.
pub(crate) fn lines_up<C: ErrorClass>(first: &C, number: usize, candidate: u64) -> bool
    ensures { result ≡ (nat_lt number (length (C.ErrorClass.patterns first.now) + 1) || not (among (C.ErrorClass.patterns first.now) candidate)) }
{
    number <= first.count() || !first.belongs(candidate)
}
