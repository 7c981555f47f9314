ghost use Rattle.std.specs.Prelude.{◌≡◌, true};
ghost use Rattle.listings.specs.Items.{good_ones};

use crate::width::Width;

pub mod asked;
mod open;
mod rank;

// Every word of `width` bits with exactly `ones` ones, rising.
#[derive(Clone, Copy)]
pub struct Random {
    pub(crate) width: Width,
    pub(crate) ones: usize,
    ghost good: { good_ones width.columns ones ≡ true },
}
