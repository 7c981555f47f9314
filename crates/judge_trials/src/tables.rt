use crate::designs::{class, hamming, repetition_six};
use classes::{Mixed, Random};
use code::{Code, Refusal};
use judge::{Decoded, FLAG, decode, decode_by_table, fill_table};
use listings::Item;
use std::process::Abort;
use std::test::Fail;

fn data(word: u64, pattern: u64) -> Result<Decoded, Refusal> {
    Ok(Decoded::Data { word, pattern })
}

// On every word of the code a filled table answers as decoding does.
fn agrees(rt: &impl Abort, code: &Code, class: &Mixed, table: &[u64]) {
    for word in 0..256 {
        assert_eq!(rt;
            decode_by_table(code, table, word),
            decode(code, class, word)
        );
    }
}

#[test]
fn decoding_takes_the_first_pattern(rt: HostRuntime) -> Result<(), Fail> {
    let code = hamming()?;
    let single = class(&code, &[Item::Random(1)])?;
    assert_eq!(rt; decode(&code, &single, 49), data(1, 0));
    assert_eq!(rt; decode(&code, &single, 48), data(1, 1));
    // 3 and 4 have one syndrome
    let both = class(&code, &[Item::Mask(3), Item::Mask(4)])?;
    assert_eq!(rt; decode(&code, &both, 4), data(7, 3));
    let none = class(&code, &[])?;
    assert_eq!(rt; decode(&code, &none, 127), data(15, 0));
    assert_eq!(rt; decode(&code, &none, 126), Ok(Decoded::Flag));
    Ok(())
}

#[test]
fn decoding_refuses_the_width_before_the_word(rt: HostRuntime) -> Result<(), Fail> {
    let code = hamming()?;
    let narrow = Random::open(6, 1)?;
    let fitting = Random::open(7, 1)?;
    assert_eq!(rt; decode(&code, &narrow, 1), Err(Refusal::WidthsDiffer));
    assert_eq!(rt; decode(&code, &narrow, 128), Err(Refusal::WidthsDiffer));
    assert_eq!(rt; decode(&code, &fitting, 128), Err(Refusal::TooWide));
    assert_eq!(rt; decode(&code, &fitting, 127), data(15, 0));
    Ok(())
}

#[test]
fn a_filled_table_decodes(rt: HostRuntime) -> Result<(), Fail> {
    let code = hamming()?;
    let single = class(&code, &[Item::Random(1)])?;
    let mut table = [9; 8];
    assert_eq!(rt; fill_table(&code, &single, &mut table), Ok(()));
    assert_eq!(rt; table, [0, 16, 32, 1, 64, 2, 4, 8]);
    agrees(&rt, &code, &single, &table);
    let code = repetition_six()?;
    let some = class(&code, &[Item::Random(1), Item::Mask(3)])?;
    let mut table = [9; 32];
    assert_eq!(rt; fill_table(&code, &some, &mut table), Ok(()));
    agrees(&rt, &code, &some, &table);
    Ok(())
}

#[test]
fn later_entries_stay(rt: HostRuntime) -> Result<(), Fail> {
    let code = hamming()?;
    let few = class(&code, &[Item::Mask(3), Item::Mask(4)])?;
    let mut table = [9; 10];
    assert_eq!(rt; fill_table(&code, &few, &mut table), Ok(()));
    assert_eq!(rt; table, [0, FLAG, FLAG, FLAG, FLAG, FLAG, 3, FLAG, 9, 9]);
    Ok(())
}

#[test]
fn a_refused_table_stays(rt: HostRuntime) -> Result<(), Fail> {
    let code = hamming()?;
    let single = Random::open(7, 1)?;
    let narrow = Random::open(6, 1)?;
    let mut short = [9; 7];
    assert_eq!(rt;
        fill_table(&code, &single, &mut short),
        Err(Refusal::ShortTable)
    );
    assert_eq!(rt; short, [9; 7]);
    assert_eq!(rt;
        fill_table(&code, &narrow, &mut short),
        Err(Refusal::WidthsDiffer)
    );
    let mut table = [9; 8];
    assert_eq!(rt;
        fill_table(&code, &narrow, &mut table),
        Err(Refusal::WidthsDiffer)
    );
    assert_eq!(rt; table, [9; 8]);
    Ok(())
}

#[test]
fn an_entry_is_taken_within_the_columns(rt: HostRuntime) -> Result<(), Fail> {
    let code = hamming()?;
    // the bits above the seven columns say nothing
    let table = [0, FLAG, FLAG, 1 + (5 << 7), FLAG, FLAG, FLAG, FLAG - 1];
    assert_eq!(rt; decode_by_table(&code, &table, 48), data(1, 1));
    assert_eq!(rt; decode_by_table(&code, &table, 49), data(1, 0));
    assert_eq!(rt; decode_by_table(&code, &table, 16), Ok(Decoded::Flag));
    // the largest entry that is no flag
    assert_eq!(rt; decode_by_table(&code, &table, 8), data(6, 126));
    assert_eq!(rt; decode_by_table(&code, &table, 128), Err(Refusal::TooWide));
    assert_eq!(rt; decode_by_table(&code, &[0; 7], 128), Err(Refusal::TooWide));
    assert_eq!(rt;
        decode_by_table(&code, &[0; 7], 127),
        Err(Refusal::ShortTable)
    );
    assert_eq!(rt; decode_by_table(&code, &[], 0), Err(Refusal::ShortTable));
    Ok(())
}
