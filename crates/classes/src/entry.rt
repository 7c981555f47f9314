ghost use Rattle.std.specs.Prelude.{◌≡◌, true};
ghost use Rattle.listings.specs.Items.{good_item, listing};
ghost use Rattle.listings.proofs.MixedItems.{item_lawful};

use crate::burst::Burst;
use crate::class::ErrorClass;
use crate::random::Random;
use crate::width::Width;
use code::Refusal;
use listings::Item;

// An item as a class of its own. The kinds of items are closed, so each question is a match and no table.
#[derive(Clone, Copy)]
pub(crate) struct Entry {
    pub(crate) width: Width,
    pub(crate) item: Item,
    ghost good: { good_item width.columns item ≡ true },
}

impl ErrorClass for Entry {
    ghost wide = { λ s. s.width.columns };

    ghost patterns = { λ s. listing s.width.columns s.item };

    ghost lawful = { λ s. item_lawful s.width.columns s.item s.width.low s.width.high s.good };

    fn width(&self) -> usize {
        self.width.columns()
    }

    fn count(&self) -> usize {
        let width = self.width;
        match self.item {
            Item::Random(ones) => Random { width, ones }.count(),
            Item::Burst(size) => Burst { width, size }.count(),
            Item::Mask(_) => 1,
        }
    }

    fn pattern_at(&self, i: usize) -> Result<u64, Refusal> {
        let width = self.width;
        match self.item {
            Item::Random(ones) => Random { width, ones }.pattern_at(i),
            Item::Burst(size) => Burst { width, size }.pattern_at(i),
            Item::Mask(mask) => [mask].get(i).copied().ok_or(Refusal::BeyondEnd),
        }
    }

    fn belongs(&self, mask: u64) -> bool {
        let width = self.width;
        match self.item {
            Item::Random(ones) => Random { width, ones }.belongs(mask),
            Item::Burst(size) => Burst { width, size }.belongs(mask),
            Item::Mask(only) => only == mask,
        }
    }
}
