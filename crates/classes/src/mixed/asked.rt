ghost use Rattle.listings.proofs.MixedItems.{mixed_lawful};
ghost use Rattle.code.specs.Shorts.{kept};
ghost use Rattle.code.proofs.Shorts.{kept_few};
ghost use Rattle.classes.specs.Meaning.{patterns_of, width_of};

use crate::class::ErrorClass;
use crate::entry::Entry;
use crate::mixed::Mixed;
use code::Refusal;

// The items are gone over by loops. Chains were tried: their closures do not know that the item at hand is good.
impl ErrorClass for Mixed {
    ghost wide = { width_of };

    ghost patterns = { patterns_of };

    ghost lawful = { λ s. mixed_lawful s.width.columns (kept s.items) s.width.low s.width.high (kept_few s.items) s.good };

    fn width(&self) -> usize {
        self.width.columns()
    }

    fn count(&self) -> usize {
        let (width, items) = (self.width, self.items());
        let mut total = 0;
        for &item in items {
            total += Entry { width, item }.count();
        }
        total
    }

    // The items before the pattern are passed over by their counts.
    fn pattern_at(&self, i: usize) -> Result<u64, Refusal> {
        let (width, items) = (self.width, self.items());
        let mut rest = i;
        for &item in items {
            let entry = Entry { width, item };
            let count = entry.count();
            if rest < count {
                return entry.pattern_at(rest);
            }
            rest -= count;
        }
        Err(Refusal::BeyondEnd)
    }

    fn belongs(&self, mask: u64) -> bool {
        let (width, items) = (self.width, self.items());
        for &item in items {
            if (Entry { width, item }).belongs(mask) {
                return true;
            }
        }
        false
    }
}
