ghost use Rattle.std.specs.Prelude.{◌≡◌, length, IfOk, string_bytes};
ghost use Rattle.code.specs.Meaning.{columns_of, data_of};
ghost use Rattle.judge.specs.Tables.{decoding_table};
ghost use Rattle.report.specs.Tables.{entries_text, entry_line, entry_lines, flag_count, table_text};

use classes::ErrorClass;
use code::{Code, weight};
use design::{Design, Duty};
use judge::{FLAG, fill_table};
use picture::value_text;
use std::alloc::{AllocError, Global};

// The decoding table of the code and the errors to correct.
pub fn table_text(heap: Global, design: &Design) -> Result<String, AllocError>
    ensures { IfOk result (λ t. string_bytes t ≡ table_text design.now) }
{
    let code = design.code();
    let entries = table_entries(heap, code, design.class(Duty::Correct))?;
    entries_text(heap, code, &entries)
}

// The entries of the table, one for each syndrome.
fn table_entries<C: ErrorClass>(
    heap: Global,
    code: &Code,
    class: &C,
) -> Result<Vec<u64>, AllocError>
    requires { C.ErrorClass.wide class.now ≡ length (columns_of code.now) }
    ensures { IfOk result (λ v. v.items ≡ decoding_table (columns_of code.now) (data_of code.now) (C.ErrorClass.patterns class.now)) }
{
    let mut entries = vec![in heap; FLAG; weight(code.check_count()) as usize]?;
    // the class is as wide as the code, and there are as many entries as syndromes
    fill_table(code, class, &mut entries).unwrap();
    Ok(entries)
}

// What is said of the entries.
fn entries_text(heap: Global, code: &Code, entries: &[u64]) -> Result<String, AllocError>
    ensures { IfOk result (λ t. string_bytes t ≡ entries_text (columns_of code.now) (data_of code.now) entries.now) }
{
    let lines = entry_lines(heap, code, entries)?;
    let flags = flag_count(entries);
    let count = entries.len();
    format!(in heap; "{lines}flags: {flags} of {count} syndromes")
}

// How many entries say flag.
fn flag_count(entries: &[u64]) -> usize
    ensures { result ≡ flag_count entries.now }
{
    entries.iter().filter(|entry| **entry == FLAG).count()
}

// The lines of the syndromes that have a pattern.
fn entry_lines(heap: Global, code: &Code, entries: &[u64]) -> Result<String, AllocError>
    ensures { IfOk result (λ t. string_bytes t ≡ entry_lines (columns_of code.now) (data_of code.now) entries.now) }
{
    let mut text = String::new(heap);
    for (syndrome, entry) in entries.iter().enumerate() {
        let line = entry_line(heap, code, syndrome as u64, *entry)?;
        text.push_str(&line)?;
    }
    Ok(text)
}

// The line of a syndrome that has a pattern. There may be as many syndromes as 16 rows have, and few of them
// with a pattern, so one that has none is given no line.
fn entry_line(heap: Global, code: &Code, syndrome: u64, entry: u64) -> Result<String, AllocError>
    ensures { IfOk result (λ t. string_bytes t ≡ entry_line (columns_of code.now) (data_of code.now) syndrome entry) }
{
    if entry == FLAG {
        return Ok(String::new(heap));
    }
    let rows = value_text(heap, syndrome, "rows", code.check_count())?;
    let pattern = value_text(heap, entry, "columns", code.column_count())?;
    format!(in heap; "syndrome {rows}: pattern {pattern}\n")
}
