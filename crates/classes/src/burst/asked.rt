ghost use Rattle.listings.proofs.MixedItems.{item_lawful};
ghost use Rattle.listings.specs.declared.item.Item.TheVariants.{Burst as Named};
ghost use Rattle.classes.specs.Meaning.{runs_of};

use crate::burst::Burst;
use crate::class::ErrorClass;
use code::{Refusal, weight};

impl ErrorClass for Burst {
    ghost wide = { λ s. s.width.columns };

    ghost patterns = { runs_of };

    ghost lawful = { λ s. item_lawful s.width.columns (Named s.size) s.width.low s.width.high s.good };

    fn width(&self) -> usize {
        self.width.columns()
    }

    fn count(&self) -> usize {
        let width = self.width.columns();
        width - self.size + 1
    }

    // The run at the number i starts in column i. The guard stands in `Random` too: shared in the trait, it would
    // ask every class for one answer more.
    fn pattern_at(&self, i: usize) -> Result<u64, Refusal> {
        if i < self.count() {
            Ok((weight(self.size) - 1) << i)
        } else {
            Err(Refusal::BeyondEnd)
        }
    }

    // Moved down to its lowest one, a run is all ones.
    fn belongs(&self, mask: u64) -> bool {
        let end = self.width.end();
        if mask == 0 || mask >= end {
            return false;
        }
        mask >> mask.trailing_zeros() == weight(self.size) - 1
    }
}
