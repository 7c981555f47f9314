ghost use Rattle.listings.proofs.MixedItems.{item_lawful};
ghost use Rattle.listings.specs.declared.item.Item.TheVariants.{Random as Named};
ghost use Rattle.classes.specs.Meaning.{words_of};

use crate::class::ErrorClass;
use crate::random::Random;
use crate::random::rank::binomial;
use code::Refusal;

impl ErrorClass for Random {
    ghost wide = { λ s. s.width.columns };

    ghost patterns = { words_of };

    ghost lawful = { λ s. item_lawful s.width.columns (Named s.ones) s.width.low s.width.high s.good };

    fn width(&self) -> usize {
        self.width.columns()
    }

    fn count(&self) -> usize {
        binomial(self.width.columns(), self.ones)
    }

    // The guard stands in `Burst` too, which says why.
    fn pattern_at(&self, i: usize) -> Result<u64, Refusal> {
        if i < self.count() {
            Ok(self.word_at(i))
        } else {
            Err(Refusal::BeyondEnd)
        }
    }

    fn belongs(&self, mask: u64) -> bool {
        mask < self.width.end() && mask.count_ones() as usize == self.ones
    }
}
