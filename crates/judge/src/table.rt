ghost use Rattle.std.specs.Prelude.{◌≡◌, ◌≢◌, ◌==◌, ◌^◌, ◌<◌, ◌≤◌, ℕ, cond, length, slice_index, EachIndex, Some, None, MatchResult};
ghost use Rattle.code.specs.Codes.{rows, syndrome};
ghost use Rattle.code.specs.Meaning.{columns_of, data_of};
ghost use Rattle.judge.specs.Tables.{AgreesWithDecoding, HoldsTable, by_entry, fill_refusal, filled, flag_entry, table_decoding};

use crate::ask::{data_bits_of, pattern, syndrome_of};
use crate::decoded::Decoded;
use classes::ErrorClass;
use code::{Code, Refusal, weight};

// The entry that stands for a flag: no pattern has all 64 bits.
pub const FLAG: u64 = u64::MAX;

// How many entries a table has: one for each syndrome.
fn entry_count(code: &Code) -> usize
    ensures { result ≡ 2 ^ rows (columns_of code.now) (data_of code.now) }
{
    weight(code.check_count()) as usize
}

// Writes, for each syndrome s, the pattern that decoding takes for s into entry s, or FLAG. It looks at
// each pattern once. Entries beyond the table stay. It refuses 8 for a class of another width than the code,
// and then 12 for a slice with fewer entries than syndromes; then nothing is written.
pub fn fill_table<C: ErrorClass>(code: &Code, class: &C, table: &mut [u64]) -> Result<(), Refusal>
    ensures { MatchResult result
        (λ _. (fill_refusal (columns_of code.now) (data_of code.now) (C.ErrorClass.wide class.now) table.old ≡ None)
        × (table.new ≡ filled (columns_of code.now) (data_of code.now) (C.ErrorClass.patterns class.now) table.old)
        × HoldsTable (columns_of code.now) (data_of code.now) (C.ErrorClass.patterns class.now) table.new)
        (λ e. (fill_refusal (columns_of code.now) (data_of code.now) (C.ErrorClass.wide class.now) table.old ≡ Some e) × (table.new ≡ table.old)) }
{
    if class.width() != code.column_count() {
        return Err(Refusal::WidthsDiffer);
    }
    let count = entry_count(code);
    if table.len() < count {
        return Err(Refusal::ShortTable);
    }
    clear(&mut table[..count]);
    // the empty pattern comes first, and leaves the syndrome 0
    table[0] = 0;
    for i in 0..class.count() {
        enter(code, pattern(class, i), table);
    }
    Ok(())
}

// Every entry says flag.
fn clear(entries: &mut [u64])
    ensures { EachIndex entries.new (λ s. slice_index entries.new s ≡ flag_entry) }
{
    entries.fill(FLAG);
}

// A pattern goes to the entry of its syndrome, unless an earlier one is there.
fn enter(code: &Code, pattern: u64, table: &mut [u64])
    requires fits { pattern < 2 ^ length (columns_of code.now) }
    requires room { 2 ^ rows (columns_of code.now) (data_of code.now) ≤ length table.old }
    ensures here { (s : ℕ) → s ≡ syndrome (columns_of code.now) pattern → slice_index table.new s ≡ cond (slice_index table.old s == flag_entry) pattern (slice_index table.old s) }
    ensures others { (s : ℕ) → s ≢ syndrome (columns_of code.now) pattern → slice_index table.new s ≡ slice_index table.old s }
{
    let s = syndrome_of(code, pattern) as usize;
    if table[s] == FLAG {
        table[s] = pattern;
    }
}

// Decodes a word by a table: the entry of its syndrome is the pattern to undo, as far as it lies within the
// columns. It refuses 10 for a word with a bit beyond the columns, and then 12 for a slice that is too short.
pub fn decode_by_table(code: &Code, table: &[u64], word: u64) -> Result<Decoded, Refusal>
    ensures value { result ≡ table_decoding (columns_of code.now) (data_of code.now) table.now word }
    ensures agrees { AgreesWithDecoding (columns_of code.now) (data_of code.now) table.now word result }
{
    let syndrome = code.syndrome(word)?;
    if table.len() < entry_count(code) {
        return Err(Refusal::ShortTable);
    }
    Ok(by_entry(code, word, table[syndrome as usize]))
}

// What an entry says of a word.
fn by_entry(code: &Code, word: u64, entry: u64) -> Decoded
    requires { word < 2 ^ length (columns_of code.now) }
    ensures { result ≡ by_entry (data_of code.now) (length (columns_of code.now)) word entry }
{
    if entry == FLAG {
        return Decoded::Flag;
    }
    let pattern = entry % weight(code.column_count());
    Decoded::Data {
        word: data_bits_of(code, word ^ pattern),
        pattern,
    }
}
