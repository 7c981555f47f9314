ghost use Rattle.std.specs.Prelude.{IfOk, string_bytes};
ghost use Rattle.script.specs.Performed.{Enters, Opens};
ghost use Rattle.script.specs.Ran.{Closes};

use crate::drawing::Drawing;
use crate::refused::{refused_code, refused_item};
use crate::reply::{opened_line, row_count_line};
use code::Code;
use design::{Design, Duty};
use listings::Item;
use std::alloc::{AllocError, Global};

// What a line makes of the design, and the text that answers it. A refusal leaves the design as it was. They take
// the design and not the session, whose drawing is lent out while one of them runs.

// A code of these column values and data columns, with no errors named.
pub(crate) fn opened(
    heap: Global,
    design: &Design,
    values: &[u64],
    numbers: &[usize],
) -> Result<(Design, String), AllocError>
    ensures { IfOk result (λ r. Opens design.now values.now numbers.now r.0 (string_bytes r.1)) }
{
    match Code::open(values, numbers) {
        Ok(code) => Ok((Design::new(code), opened_line(heap, &code)?)),
        Err(refusal) => Ok((*design, refused_code(heap, refusal, values, numbers)?)),
    }
}

// An item is named for a duty.
pub(crate) fn named(
    heap: Global,
    design: &Design,
    duty: Duty,
    item: Item,
) -> Result<(Design, String), AllocError>
    ensures { IfOk result (λ r. Enters design.now duty item r.0 (string_bytes r.1)) }
{
    match design.with_item(duty, item) {
        Ok(more) => Ok((more, more.class_line(heap, duty)?)),
        Err(refusal) => {
            let columns = design.code().column_count();
            Ok((*design, refused_item(heap, refusal, columns, item)?))
        }
    }
}

// The data columns end the drawing, which is a code if it has a row for each check column. That test stands
// between the two steps of `opened`, so this is not a call of it.
pub(crate) fn closed(
    heap: Global,
    design: &Design,
    drawing: &Drawing,
    number: usize,
    numbers: &[usize],
) -> Result<(Design, String), AllocError>
    ensures { IfOk result (λ r. Closes design.now drawing.now numbers.now r.0 (string_bytes r.1)) }
{
    let values = drawing.column_values();
    let rows = drawing.row_count();
    match Code::open(values, numbers) {
        Ok(code) => {
            if rows == code.check_count() {
                Ok((Design::new(code), opened_line(heap, &code)?))
            } else {
                Ok((*design, row_count_line(heap, number, rows, &code)?))
            }
        }
        Err(refusal) => Ok((*design, refused_code(heap, refusal, values, numbers)?)),
    }
}
