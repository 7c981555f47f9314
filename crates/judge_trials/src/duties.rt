// A second way to the verdict: whether some rule does the duty is tried word by word.
use crate::designs::{class, hamming, repetition_six, repetition_two, uncovered};
use classes::{ErrorClass, Mixed, patterns_of};
use code::{Code, Refusal};
use judge::{Decoded, decode, judge};
use listings::Item;
use std::process::Abort;
use std::test::Fail;

// What the duty asks of a rule for one received word.
#[derive(Clone, Copy, PartialEq, Eq, Debug)]
enum Asked {
    Nothing,
    Data(u64),
    Flag,
    // two things at once: no rule gives both
    Torn,
}

impl Asked {
    // The same, and this too.
    fn and(self, more: Asked) -> Asked {
        match (self, more) {
            (Asked::Nothing, _) => more,
            (_, Asked::Nothing) => self,
            _ => if self == more { self } else { Asked::Torn },
        }
    }
}

// What the data word asks of a rule, where it is struck so that the word is received.
fn asked_by(
    code: &Code,
    first: &Mixed,
    second: &Mixed,
    word: u64,
    received: u64,
) -> Result<Asked, Refusal> {
    let pattern = code.encode(word)? ^ received;
    Ok(if pattern == 0 || first.belongs(pattern) {
        Asked::Data(word)
    } else if second.belongs(pattern) {
        Asked::Flag
    } else {
        Asked::Nothing
    })
}

// What all data words together ask for the received word.
fn asked_of(code: &Code, first: &Mixed, second: &Mixed, received: u64) -> Result<Asked, Refusal> {
    let mut sum = Asked::Nothing;
    for word in 0..16 {
        if word >> code.data_count().min(63) == 0 {
            sum = sum.and(asked_by(code, first, second, word, received)?);
        }
    }
    Ok(sum)
}

// What decoding gives, as the duty may ask for it.
fn given(decoded: Decoded) -> Asked {
    match decoded {
        Decoded::Data { word, .. } => Asked::Data(word),
        Decoded::Flag => Asked::Flag,
    }
}

// How many patterns line up, the empty one counted.
fn line_length(first: &Mixed, second: &Mixed) -> usize {
    let mut length = first.count().wrapping_add(1);
    for pattern in patterns_of(second) {
        if !first.belongs(pattern) {
            length = length.wrapping_add(1);
        }
    }
    length
}

// A design is accepted exactly where no received word is torn; and then decoding gives what is asked.
fn judged_rightly(
    rt: &impl Abort,
    code: &Code,
    first: &[Item],
    second: &[Item],
) -> Result<(), Fail> {
    let (first, second) = (class(code, first)?, class(code, second)?);
    let mut torn = false;
    for received in 0..128 {
        if received >> code.column_count().min(63) == 0 {
            torn = torn || asked_of(code, &first, &second, received)? == Asked::Torn;
        }
    }
    let verdict = judge(code, &first, &second);
    assert_eq!(rt; verdict.is_err(), torn);
    if torn {
        return Ok(());
    }
    assert_eq!(rt; verdict, Ok(line_length(&first, &second)));
    for received in 0..128 {
        if received >> code.column_count().min(63) == 0 {
            let asked = asked_of(code, &first, &second, received)?;
            let given = given(decode(code, &first, received)?);
            assert!(rt; asked == Asked::Nothing || asked == given);
        }
    }
    Ok(())
}

// Each of these classes to correct, with each of them to flag.
fn every_pair(rt: &impl Abort, code: &Code, sets: &[&[Item]]) -> Result<(), Fail> {
    for first in sets {
        for second in sets {
            judged_rightly(rt, code, first, second)?;
        }
    }
    Ok(())
}

#[test]
fn refused_exactly_where_no_rule_serves(rt: HostRuntime) -> Result<(), Fail> {
    let sets: [&[Item]; 5] = [
        &[],
        &[Item::Random(1)],
        &[Item::Random(2)],
        &[Item::Burst(2), Item::Mask(1)],
        &[Item::Random(1), Item::Random(2)],
    ];
    every_pair(&rt, &hamming()?, &sets)?;
    every_pair(&rt, &repetition_six()?, &sets)?;
    every_pair(&rt, &repetition_two()?, &sets)?;
    every_pair(&rt, &uncovered()?, &sets)
}
