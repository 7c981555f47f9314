use crate::naive;
use code::{Code, MOST_COLUMNS, Refusal, worked_examples};
use std::alloc::{AllocError, Global};
use std::iter;
use std::process::Abort;
use std::test::Fail;

// The number of the refusal, where the code does not open.
fn refused(values: &[u64], numbers: &[usize]) -> Option<u8> {
    Code::open(values, numbers).err().map(|e| e.number())
}

// The index that goes with the refusal.
fn refused_at(values: &[u64], numbers: &[usize]) -> Option<u64> {
    Code::open(values, numbers)
        .err()
        .and_then(|e| e.value_at(0))
}

// The column values 1 to count: the Hamming codes.
fn hamming_values(heap: Global, count: u64) -> Result<Vec<u64>, AllocError> {
    (1..=count).collect(heap)
}

// The columns of those that do not hold a unit.
fn hamming_data(heap: Global, count: u64) -> Result<Vec<usize>, AllocError> {
    (1..=count)
        .enumerate()
        .filter(|(_, value)| value.count_ones() != 1)
        .map(|(j, _)| j)
        .collect(heap)
}

// Some word of the width, another one for each i.
fn word_at(i: u64, bits: usize) -> u64 {
    let mixed = i
        .wrapping_mul(i)
        .wrapping_add(i)
        .wrapping_add(1)
        .wrapping_mul(0x9e37_79b9_7f4a_7c15);
    if bits < 64 {
        mixed % (1 << bits)
    } else {
        mixed
    }
}

// Every answer about some words agrees with the second way to it.
fn agrees(rt: &impl Abort, code: &Code) -> Result<(), Fail> {
    let n = code.column_count();
    let k = code.data_count();
    for i in 0..40 {
        let word = word_at(i, n);
        assert_eq!(rt;
            code.syndrome(word),
            Ok(naive::syndrome(code.column_values(), word))
        );
        assert_eq!(rt;
            code.data_bits(word),
            Ok(naive::data_bits(code.data_columns(), word))
        );
        let message = word_at(i, k);
        let encoded = code.encode(message)?;
        assert_eq!(rt; naive::syndrome(code.column_values(), encoded), 0);
        assert_eq!(rt; naive::data_bits(code.data_columns(), encoded), message);
    }
    Ok(())
}

#[test]
fn widest_code_opens(rt: HostRuntime) -> Result<(), Fail> {
    let heap = rt.alloc();
    let values = hamming_values(heap, 63)?;
    let numbers = hamming_data(heap, 63)?;
    let code = Code::open(&values, &numbers)?;
    assert_eq!(rt; code.column_count(), MOST_COLUMNS);
    assert_eq!(rt; code.data_count(), 57);
    assert_eq!(rt; code.check_count(), 6);
    agrees(&rt, &code)?;
    assert_eq!(rt; code.syndrome(u64::MAX >> 1), Ok(0));
    assert_eq!(rt; code.syndrome(1 << 63), Err(Refusal::TooWide));
    assert_eq!(rt; code.data_bits(1 << 63), Err(Refusal::TooWide));
    assert!(rt; code.encode((1 << 57) - 1).is_ok());
    assert_eq!(rt; code.encode(1 << 57), Err(Refusal::TooWide));
    Ok(())
}

#[test]
fn column_count_is_bounded(rt: HostRuntime) -> Result<(), Fail> {
    let heap = rt.alloc();
    let values = hamming_values(heap, 64)?;
    let numbers = hamming_data(heap, 64)?;
    assert_eq!(rt; refused(&values, &numbers), Some(1));
    assert_eq!(rt; refused(&[], &[]), Some(1));
    assert_eq!(rt; refused(&[1], &[0]), Some(1));
    // the first refusal is given where several hold
    assert_eq!(rt; refused(&[9], &[7, 7]), Some(1));
    Ok(())
}

#[test]
fn data_columns_are_bounded(rt: HostRuntime) -> Result<(), Fail> {
    assert_eq!(rt; refused(&[1, 1], &[]), Some(2));
    assert_eq!(rt; refused(&[1, 1], &[0, 1]), Some(2));
    assert_eq!(rt; refused(&[1, 1], &[0, 1, 2]), Some(2));
    let values: Vec<u64> = (0..18).map(|i| 1 << i).collect(rt.alloc())?;
    // 17 rows are one too many, whatever the values are
    assert_eq!(rt; refused(&values, &[17]), Some(2));
    assert_eq!(rt; refused(&[1, 1, 9], &[0, 1, 7]), Some(2));
    Ok(())
}

#[test]
fn sixteen_rows_open(rt: HostRuntime) -> Result<(), Fail> {
    let values: Vec<u64> = (0..16)
        .map(|i| 1 << i)
        .chain(iter::once(0))
        .collect(rt.alloc())?;
    let code = Code::open(&values, &[16])?;
    assert_eq!(rt; code.check_count(), 16);
    agrees(&rt, &code)?;
    assert_eq!(rt; code.encode(1), Ok(1 << 16));
    assert_eq!(rt; code.syndrome(0xffff), Ok(0xffff));
    Ok(())
}

#[test]
fn first_bad_data_column_is_named(rt: HostRuntime) {
    let values = [3, 5, 6, 7, 1, 2, 4];
    assert_eq!(rt; refused(&values, &[0, 1, 2, 7]), Some(3));
    assert_eq!(rt; refused_at(&values, &[0, 1, 2, 7]), Some(3));
    assert_eq!(rt; refused_at(&values, &[7, 1, 2, 7]), Some(0));
    assert_eq!(rt; refused_at(&values, &[0, 1, 1, 0]), Some(2));
    assert_eq!(rt; refused_at(&values, &[1, 0, 2, 9]), Some(1));
    // before any column value is looked at
    assert_eq!(rt; refused(&[9, 5, 6, 7, 1, 2, 4], &[0, 0, 2, 3]), Some(3));
}

#[test]
fn first_high_value_is_named(rt: HostRuntime) {
    let numbers = [0, 1, 2, 3];
    assert_eq!(rt; refused(&[3, 5, 9, 7, 1, 2, 4], &numbers), Some(4));
    assert_eq!(rt; refused_at(&[3, 5, 9, 7, 1, 2, 4], &numbers), Some(2));
    assert_eq!(rt; refused_at(&[3, 5, 6, 7, 1, 2, 8], &numbers), Some(6));
    assert_eq!(rt;
        refused_at(&[u64::MAX, 9, 6, 7, 1, 2, 4], &numbers),
        Some(0)
    );
}

#[test]
fn check_columns_are_the_units(rt: HostRuntime) -> Result<(), Fail> {
    let numbers = [0, 1, 2, 3];
    assert_eq!(rt; refused(&[3, 5, 6, 7, 1, 2, 2], &numbers), Some(5));
    assert_eq!(rt; refused(&[3, 5, 6, 7, 1, 2, 0], &numbers), Some(5));
    assert_eq!(rt; refused(&[3, 5, 6, 7, 1, 2, 3], &numbers), Some(5));
    assert_eq!(rt; refused(&[1, 2, 4, 7, 1, 2, 7], &numbers), Some(5));
    assert_eq!(rt; refused(&[1, 0], &[0]), Some(5));
    assert_eq!(rt; refused_at(&[1, 0], &[0]), None);
    // in any order, and between the data columns
    assert_eq!(rt; refused(&[3, 5, 6, 7, 4, 1, 2], &numbers), None);
    let code = Code::open(&[4, 3, 1, 5, 6, 2, 7], &[1, 3, 4, 6])?;
    agrees(&rt, &code)?;
    assert_eq!(rt; code.encode(1), Ok(0b10_0110));
    Ok(())
}

#[test]
fn data_column_may_hold_a_unit(rt: HostRuntime) -> Result<(), Fail> {
    let code = Code::open(&[1, 2, 0, 1, 2], &[0, 1, 2])?;
    agrees(&rt, &code)?;
    assert_eq!(rt; code.encode(0b011), Ok(0b11011));
    assert_eq!(rt; code.encode(0b100), Ok(0b00100));
    Ok(())
}

#[test]
fn smallest_code_repeats_a_bit(rt: HostRuntime) -> Result<(), Fail> {
    let code = Code::default();
    assert_eq!(rt; code.column_count(), 2);
    assert_eq!(rt; code.column_values(), [1, 1].as_slice());
    assert_eq!(rt; code.data_columns(), [0].as_slice());
    agrees(&rt, &code)?;
    assert_eq!(rt; code.encode(1), Ok(3));
    assert_eq!(rt; code.encode(2), Err(Refusal::TooWide));
    assert_eq!(rt; code.syndrome(3), Ok(0));
    assert_eq!(rt; code.syndrome(4), Err(Refusal::TooWide));
    assert_eq!(rt; code.data_bits(2), Ok(0));
    Ok(())
}

#[test]
fn worked_examples_come_out(rt: HostRuntime) {
    assert_eq!(rt; worked_examples(), Ok((49, 127)));
}
