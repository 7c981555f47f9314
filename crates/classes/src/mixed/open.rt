ghost use Rattle.std.specs.Prelude.{◌≡◌, [], ◌∷◌, ◌++◌};
ghost use Rattle.listings.specs.Limits.{most_items};
ghost use Rattle.classes.specs.Meaning.{MixedOpened, items_of, width_of};
ghost use Rattle.classes.specs.Opening.{Tells, item_refusal, mixed_refusal};

use crate::check::{Element, check_all};
use crate::mixed::Mixed;
use code::{Refusal, Short};
use listings::{Item, MOST_ITEMS};

impl Mixed {
    // The class of the items.
    pub fn open(width: usize, items: &[Item]) -> Result<Mixed, Refusal>
        ensures opened { MixedOpened width items.now result }
        ensures tells { Tells width most_items (item_refusal width) items.now (mixed_refusal width items.now) }
    {
        let width = check_all(width, items, MOST_ITEMS)?;
        Ok(Mixed {
            width,
            items: Short::from_slice(items, Item::Mask(0)).unwrap(),
        })
    }

    // The items, in the order of their patterns.
    pub fn items(&self) -> &[Item]
        ensures { result.now ≡ items_of self.now }
    {
        self.items.as_slice()
    }

    // The class with one item more: as if it had been opened with that item at the end.
    pub fn with_item(&self, item: Item) -> Result<Mixed, Refusal>
        ensures { MixedOpened (width_of self.now) (items_of self.now ++ (item ∷ [])) result }
    {
        let mut items = self.items;
        items.push(item).or(Err(Refusal::OutOfBounds))?;
        item.check(self.width, self.items().len())?;
        Ok(Mixed {
            width: self.width,
            items,
        })
    }
}
