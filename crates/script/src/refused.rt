ghost use Rattle.std.specs.Prelude.{◌≡◌, IfOk, string_bytes};
ghost use Rattle.script.specs.Replies.{Says};

use code::Refusal;
use listings::Item;
use std::alloc::{AllocError, Global};
use std::fmt;

mod item;
mod open;
mod place;

use item::ItemReason;
use open::OpenReason;
use place::Place;

// A refusal in a student's words: its number, its place and why.
fn refused_line<D: fmt::Display>(
    heap: Global,
    refusal: Refusal,
    why: &D,
) -> Result<String, AllocError>
    ensures { IfOk result (λ t. Says refusal (string_bytes t)) }
{
    let number = refusal.number();
    let place = Place(refusal);
    // a clause speaks of a text that was made, and not of a value that may print anything
    let why = why.to_string(heap)?;
    format!(in heap; "refused {number}{place}: {why}")
}

// No code of these column values and data columns is opened.
pub(crate) fn refused_code(
    heap: Global,
    refusal: Refusal,
    values: &[u64],
    numbers: &[usize],
) -> Result<String, AllocError>
    ensures { IfOk result (λ t. Says refusal (string_bytes t)) }
{
    let why = OpenReason {
        refusal,
        values,
        numbers,
    };
    refused_line(heap, refusal, &why)
}

// The item is not named in a class of so many columns.
pub(crate) fn refused_item(
    heap: Global,
    refusal: Refusal,
    columns: usize,
    item: Item,
) -> Result<String, AllocError>
    ensures { IfOk result (λ t. Says refusal (string_bytes t)) }
{
    let why = ItemReason {
        refusal,
        columns,
        item,
    };
    refused_line(heap, refusal, &why)
}
