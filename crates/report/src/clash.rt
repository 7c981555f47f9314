ghost use Rattle.std.specs.Prelude.{◌≡◌, ◌^◌, ◌<◌, length, IfOk, string_bytes};
ghost use Rattle.code.specs.Meaning.{columns_of, data_of};
ghost use Rattle.report.specs.Clashes.{clash_line, clash_text, collision_line, duties_line, earlier_duty, pictured_clash};

use crate::syndrome::syndrome_text;
use code::{Clash, Code};
use picture::{marked_picture, value_text};
use std::alloc::{AllocError, Global};

// Two patterns that clash: their line, the matrix with their columns marked, what is asked for each, and
// two data words that show the clash. The later pattern is to be `duty`, as `corrected` or `flagged`.
pub(crate) fn clash_text(
    heap: Global,
    code: &Code,
    number: u8,
    duty: &'static str,
    clash: Clash,
) -> Result<String, AllocError>
    requires { clash.earlier < 2 ^ length (columns_of code.now) }
    ensures { IfOk result (λ t. string_bytes t ≡ clash_text (columns_of code.now) (data_of code.now) number duty.now clash) }
{
    let head = clash_line(heap, number, clash)?;
    let picture = clash_picture(heap, code, clash)?;
    let duties = duties_line(heap, code, duty, clash)?;
    let collision = collision_line(heap, code, clash)?;
    format!(in heap; "{head}\n{picture}\n{duties}\n{collision}")
}

// The number of the refusal, and both patterns.
fn clash_line(heap: Global, number: u8, clash: Clash) -> Result<String, AllocError>
    ensures { IfOk result (λ t. string_bytes t ≡ clash_line number clash) }
{
    let (p, q) = (clash.earlier, clash.later);
    format!(in heap; "refused {number}: p = {p} and q = {q} clash")
}

// The matrix of the code with the columns of both patterns marked.
fn clash_picture(heap: Global, code: &Code, clash: Clash) -> Result<String, AllocError>
    ensures { IfOk result (λ t. string_bytes t ≡ pictured_clash (columns_of code.now) (data_of code.now) clash) }
{
    marked_picture(
        heap,
        code.column_values(),
        code.data_columns(),
        code.check_count(),
        clash.earlier,
        clash.later,
    )
}

// What is asked for the earlier pattern; the empty one stands for a word that was not struck.
fn earlier_duty(pattern: u64) -> &'static str
    ensures { result.now ≡ earlier_duty pattern }
{
    if pattern == 0 {
        "no error"
    } else {
        "to be corrected"
    }
}

// What is asked for each pattern, and the syndrome of both.
fn duties_line(
    heap: Global,
    code: &Code,
    duty: &'static str,
    clash: Clash,
) -> Result<String, AllocError>
    requires { clash.earlier < 2 ^ length (columns_of code.now) }
    ensures { IfOk result (λ t. string_bytes t ≡ duties_line (columns_of code.now) (data_of code.now) duty.now clash) }
{
    let earlier = earlier_duty(clash.earlier);
    let syndrome = syndrome_text(heap, code, clash.earlier)?;
    format!(in heap; "p is {earlier}, q is to be {duty}, and both have the syndrome {syndrome}")
}

// Two data words that become one word when the patterns strike them.
fn collision_line(heap: Global, code: &Code, clash: Clash) -> Result<String, AllocError>
    ensures { IfOk result (λ t. string_bytes t ≡ collision_line (columns_of code.now) (data_of code.now) clash) }
{
    let first = value_text(heap, clash.first, "bits", code.data_count())?;
    let second = value_text(heap, clash.second, "bits", code.data_count())?;
    let received = value_text(heap, clash.earlier, "columns", code.column_count())?;
    format!(in heap;
        "data word {first} struck by p and data word {second} struck by q are both received as {received}"
    )
}
