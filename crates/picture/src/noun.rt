ghost use Rattle.std.specs.Prelude.{◌≡◌, IfOk, string_bytes};
ghost use Rattle.picture.specs.Nouns.{counted, one_or};

use std::alloc::{AllocError, Global};

// The word for so many things, as `row` for one and `rows` for any other number of them.
pub fn noun_for(count: usize, one: &'static str, many: &'static str) -> &'static str
    ensures { result.now ≡ one_or count one.now many.now }
{
    if count == 1 { one } else { many }
}

// A number of things in words, as `1 row` or `2 rows`.
pub fn counted_text(
    heap: Global,
    count: usize,
    one: &'static str,
    many: &'static str,
) -> Result<String, AllocError>
    ensures { IfOk result (λ t. string_bytes t ≡ counted count one.now many.now) }
{
    let noun = noun_for(count, one, many);
    format!(in heap; "{count} {noun}")
}
