use code::Refusal;
use listings::{Item, LEAST_RUN, MOST_ITEMS, MOST_ONES, MOST_RUN};
use picture::noun_for;
use std::fmt;

// Why the item is not named in a class of so many columns.
#[derive(Clone, Copy)]
pub(super) struct ItemReason {
    pub(super) refusal: Refusal,
    pub(super) columns: usize,
    pub(super) item: Item,
}

impl fmt::Display for ItemReason {
    fn fmt<W: fmt::Write>(&self, f: &mut fmt::Formatter<W>) -> fmt::Result {
        if self.refusal == Refusal::OutOfBounds {
            return write!(f, "a class has at most {MOST_ITEMS} items");
        }
        let columns = self.columns;
        match self.item {
            Item::Random(ones) => {
                let upsets = noun_for(ones, "random upset", "random upsets");
                let most = MOST_ONES.min(columns);
                write!(
                    f,
                    "{ones} {upsets} at once, a class of {columns} columns takes 1 to {most}"
                )
            }
            Item::Burst(size) => {
                let struck = noun_for(size, "column", "columns");
                let most = MOST_RUN.min(columns);
                write!(
                    f,
                    "a burst of {size} {struck}, a class of {columns} columns takes {LEAST_RUN} to {most}"
                )
            }
            Item::Mask(0) => f.write_str("mask 0 flips no column"),
            Item::Mask(mask) => { write!(f, "mask {mask} has a bit beyond the {columns} columns") }
        }
    }
}
