ghost use Rattle.std.specs.Prelude.{◌≡◌, true};
ghost use Rattle.listings.specs.Items.{good_run};

use crate::width::Width;

pub mod asked;
mod open;

// Every run of exactly `size` neighbouring ones within `width` columns, rising.
#[derive(Clone, Copy)]
pub struct Burst {
    pub(crate) width: Width,
    pub(crate) size: usize,
    ghost good: { good_run width.columns size ≡ true },
}
