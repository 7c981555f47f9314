ghost use Rattle.std.specs.Prelude.{Some};
ghost use Rattle.listings.specs.Items.{item_name};

use std::fmt;

// One of the errors that a mixed class names.
#[derive(Clone, Copy, PartialEq, Eq, Debug)]
pub enum Item {
    // every word with so many ones
    Random(usize),
    // every run of so many neighbouring ones
    Burst(usize),
    // this one mask
    Mask(u64),
}

// An item as the lab's script names it.
impl fmt::Display for Item {
    ghost output = { λ item. Some (item_name item) };

    fn fmt<W: fmt::Write>(&self, f: &mut fmt::Formatter<W>) -> fmt::Result {
        match self {
            Item::Random(ones) => write!(f, "random {ones}"),
            Item::Burst(size) => write!(f, "burst {size}"),
            Item::Mask(mask) => write!(f, "mask {mask}"),
        }
    }
}
