ghost use Rattle.std.specs.Prelude.{◌≡◌, true};
ghost use Rattle.code.specs.Shorts.{kept};
ghost use Rattle.listings.specs.Items.{good_items};

use crate::width::Width;
use code::Short;
use listings::{Item, MOST_ITEMS};

pub mod asked;
pub mod fresh;
mod open;

// Some items, listed one after the other; a pattern may come twice.
#[derive(Clone, Copy)]
pub struct Mixed {
    width: Width,
    items: Short<Item, MOST_ITEMS>,
    ghost good: { good_items width.columns (kept items) ≡ true },
}
