ghost use Rattle.std.specs.Prelude.{◌≡◌, []};
ghost use Rattle.classes.specs.Meaning.{items_of, width_of};

use crate::mixed::Mixed;
use crate::width::Width;
use code::Short;
use listings::Item;

// A fresh mixed class has two columns and no patterns.
impl Default for Mixed {
    ghost is_default = { λ c. (width_of c ≡ 2) × (items_of c ≡ []) };

    fn default() -> Self {
        Mixed {
            width: Width::least(),
            items: Short::new(Item::Mask(0)),
        }
    }
}
