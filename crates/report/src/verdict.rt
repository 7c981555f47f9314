ghost use Rattle.std.specs.Prelude.{◌≡◌, length, IfOk, string_bytes};
ghost use Rattle.code.specs.Meaning.{columns_of, data_of};
ghost use Rattle.judge.specs.Verdicts.{verdict};
ghost use Rattle.report.specs.Verdicts.{ClashFits, EarlierFits, accepted_line, refused_line, refused_text, said_of, verdict_text};

use crate::clash::clash_text;
use classes::ErrorClass;
use code::{Code, Refusal};
use design::{Design, Duty};
use picture::counted_text;
use std::alloc::{AllocError, Global};

// The judge's verdict on a design.
pub fn verdict_text(heap: Global, design: &Design) -> Result<String, AllocError>
    ensures { IfOk result (λ t. string_bytes t ≡ verdict_text design.now) }
{
    judged_text(
        heap,
        design.code(),
        design.class(Duty::Correct),
        design.class(Duty::Detect),
    )
}

// The verdict on a code, with any two classes.
fn judged_text<C: ErrorClass, D: ErrorClass>(
    heap: Global,
    code: &Code,
    first: &C,
    second: &D,
) -> Result<String, AllocError>
    ensures { IfOk result (λ t. string_bytes t ≡ said_of (columns_of code.now) (data_of code.now) (verdict (columns_of code.now) (data_of code.now) (C.ErrorClass.wide first.now) (C.ErrorClass.patterns first.now) (D.ErrorClass.wide second.now) (D.ErrorClass.patterns second.now))) }
{
    said_of(heap, code, judge::judge(code, first, second))
}

// What is said of a verdict.
fn said_of(heap: Global, code: &Code, verdict: Result<usize, Refusal>) -> Result<String, AllocError>
    requires { EarlierFits (length (columns_of code.now)) verdict }
    ensures { IfOk result (λ t. string_bytes t ≡ said_of (columns_of code.now) (data_of code.now) verdict) }
{
    match verdict {
        Ok(count) => accepted_line(heap, count),
        Err(refusal) => refused_text(heap, code, refusal),
    }
}

// What is said of a refusal: a clash is drawn and explained.
fn refused_text(heap: Global, code: &Code, refusal: Refusal) -> Result<String, AllocError>
    requires { ClashFits (length (columns_of code.now)) refusal }
    ensures { IfOk result (λ t. string_bytes t ≡ refused_text (columns_of code.now) (data_of code.now) refusal) }
{
    let number = refusal.number();
    match refusal {
        Refusal::CorrectableClash(clash) => clash_text(heap, code, number, "corrected", clash),
        Refusal::DetectableClash(clash) => clash_text(heap, code, number, "flagged", clash),
        refusal => refused_line(heap, refusal),
    }
}

// No two patterns clash, of so many.
fn accepted_line(heap: Global, count: usize) -> Result<String, AllocError>
    ensures { IfOk result (λ t. string_bytes t ≡ accepted_line count) }
{
    let patterns = counted_text(heap, count, "pattern", "patterns")?;
    format!(in heap; "judge: accepted, no clash among {patterns}")
}

// A refusal for no clash, by its number and its own reason.
fn refused_line(heap: Global, refusal: Refusal) -> Result<String, AllocError>
    ensures { IfOk result (λ t. string_bytes t ≡ refused_line refusal) }
{
    let number = refusal.number();
    format!(in heap; "refused {number}: {refusal}")
}
