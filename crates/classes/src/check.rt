ghost use Rattle.std.specs.Prelude.{◌≡◌, ℕ, Some, None, Option, MatchResult};
ghost use Rattle.code.specs.declared.refusal.Refusal.{Refusal};
ghost use Rattle.classes.specs.Opening.{Tells, elements_refusal, item_refusal, mask_refusal};

use crate::width::Width;
use code::Refusal;
use listings::Item;

// What a class is opened with, element by element: masks or items.
pub(crate) trait Element: Copy {
    ghost refusal: { ℕ → ℕ → Self → Option Refusal };

    // What opening refuses of the element at an index.
    fn check(self, width: Width, i: usize) -> Result<(), Refusal>
        ensures { MatchResult result (λ _. refusal width.columns i self ≡ None) (λ e. refusal width.columns i self ≡ Some e) };
}

impl Element for u64 {
    ghost refusal = { mask_refusal };

    fn check(self, width: Width, i: usize) -> Result<(), Refusal> {
        if self == 0 {
            return Err(Refusal::OutOfBoundsAt(i));
        }
        if self >= width.end() {
            return Err(Refusal::TooWideAt(i));
        }
        Ok(())
    }
}

impl Element for Item {
    ghost refusal = { item_refusal };

    fn check(self, width: Width, i: usize) -> Result<(), Refusal> {
        let taken = match self {
            Item::Random(ones) => width.takes_ones(ones),
            Item::Burst(size) => width.takes_run(size),
            Item::Mask(mask) => return mask.check(width, i),
        };
        if taken {
            Ok(())
        } else {
            Err(Refusal::OutOfBoundsAt(i))
        }
    }
}

// What opening refuses: the width first, then the count, then the first element that is not taken, with its index.
pub(crate) fn check_all<E: Element>(
    width: usize,
    elements: &[E],
    most: usize,
) -> Result<Width, Refusal>
    ensures value { MatchResult result
        (λ w. (elements_refusal most (E.refusal width) width elements.now ≡ None) × (w.columns ≡ width))
        (λ e. elements_refusal most (E.refusal width) width elements.now ≡ Some e) }
    ensures tells { Tells width most (E.refusal width) elements.now (elements_refusal most (E.refusal width) width elements.now) }
{
    let checked = Width::open(width)?;
    if elements.len() > most {
        return Err(Refusal::OutOfBounds);
    }
    for (i, element) in elements.iter().enumerate() {
        element.check(checked, i)?;
    }
    Ok(checked)
}
