ghost use Rattle.std.specs.Prelude.{◌≡◌, ◌≤◌, [], length, Some, None, MatchResult};
ghost use Rattle.listings.specs.Lawful.{Patterns};
ghost use Rattle.listings.specs.Limits.{most_patterns};
ghost use Rattle.classes.specs.Opening.{Tells, listed_refusal, mask_refusal};

use crate::check::check_all;
use crate::class::ErrorClass;
use crate::width::Width;
use code::Refusal;
use listings::MOST_PATTERNS;

// The masks of a lent slice, in their order. Of every listed class it is known that each of its masks is a
// pattern, so no question tests that again.
#[derive(Clone, Copy)]
pub struct Listed<'a> {
    width: Width,
    masks: &'a [u64],
    ghost few: { length masks.now ≤ most_patterns },
    ghost each: { Patterns width.columns masks.now },
}

impl<'a> ErrorClass for Listed<'a> {
    ghost wide = { λ s. s.width.columns };

    ghost patterns = { λ s. s.masks.now };

    ghost lawful = { λ s. record { low = s.width.low; high = s.width.high; few = s.few; each = s.each } };

    fn width(&self) -> usize {
        self.width.columns()
    }

    fn count(&self) -> usize {
        self.masks.len()
    }

    fn pattern_at(&self, i: usize) -> Result<u64, Refusal> {
        self.masks.get(i).copied().ok_or(Refusal::BeyondEnd)
    }

    // A rule of the project: a listed class is opened and asked over its masks with their index, so this is a walk
    // and not `contains`.
    fn belongs(&self, mask: u64) -> bool {
        for (_i, listed) in self.masks.iter().enumerate() {
            if *listed == mask {
                return true;
            }
        }
        false
    }
}

impl<'a> Listed<'a> {
    // The class of the masks.
    pub fn open(width: usize, masks: &'a [u64]) -> Result<Listed<'a>, Refusal>
        ensures opened { MatchResult result (λ c. (listed_refusal width masks.now ≡ None) × (c.width.columns ≡ width) × (c.masks.now ≡ masks.now)) (λ e. listed_refusal width masks.now ≡ Some e) }
        ensures tells { Tells width most_patterns (mask_refusal width) masks.now (listed_refusal width masks.now) }
    {
        let width = check_all(width, masks, MOST_PATTERNS)?;
        Ok(Listed { width, masks })
    }
}

// A fresh listed class has two columns and no patterns.
impl<'a> Default for Listed<'a> {
    ghost is_default = { λ c. (c.width.columns ≡ 2) × (c.masks.now ≡ []) };

    fn default() -> Listed<'a> {
        Listed {
            width: Width::least(),
            masks: &[],
        }
    }
}
