use crate::designs::{class, hamming, repetition_six, repetition_two, uncovered};
use classes::Random;
use code::{Clash, Code, Refusal};
use judge::{judge, worked_verdict};
use listings::Item;
use std::test::Fail;

// The verdict on the code with these items to correct and to flag.
fn verdict(code: &Code, first: &[Item], second: &[Item]) -> Result<usize, Refusal> {
    judge(code, &class(code, first)?, &class(code, second)?)
}

// The refusal for two patterns of which the later one is to be corrected.
fn correctable(earlier: u64, later: u64, second: u64) -> Result<usize, Refusal> {
    Err(Refusal::CorrectableClash(Clash {
        earlier,
        later,
        first: 0,
        second,
    }))
}

// The refusal for two patterns of which the later one is to be flagged.
fn detectable(earlier: u64, later: u64, second: u64) -> Result<usize, Refusal> {
    Err(Refusal::DetectableClash(Clash {
        earlier,
        later,
        first: 0,
        second,
    }))
}

#[test]
fn worked_designs(rt: HostRuntime) -> Result<(), Fail> {
    let (one, two, three) = (Item::Random(1), Item::Random(2), Item::Random(3));
    assert_eq!(rt; worked_verdict(), Ok(8));
    let code = hamming()?;
    assert_eq!(rt; verdict(&code, &[one], &[]), Ok(8));
    assert_eq!(rt; verdict(&code, &[one], &[two]), detectable(4, 3, 7));
    assert_eq!(rt;
        verdict(&code, &[one, Item::Burst(2)], &[]),
        correctable(4, 3, 7)
    );
    let code = repetition_two()?;
    assert_eq!(rt; verdict(&code, &[], &[one]), Ok(3));
    assert_eq!(rt; verdict(&code, &[one], &[]), correctable(1, 2, 1));
    let code = repetition_six()?;
    assert_eq!(rt; verdict(&code, &[one, two], &[three]), Ok(42));
    Ok(())
}

#[test]
fn a_column_of_zeros_clashes_with_the_empty_pattern(rt: HostRuntime) -> Result<(), Fail> {
    let code = uncovered()?;
    assert_eq!(rt; verdict(&code, &[Item::Mask(1)], &[]), correctable(0, 1, 1));
    assert_eq!(rt; verdict(&code, &[], &[Item::Mask(1)]), detectable(0, 1, 1));
    // the clash is found at the later of the two columns too
    assert_eq!(rt;
        verdict(&code, &[Item::Mask(2), Item::Mask(1)], &[]),
        correctable(0, 1, 1)
    );
    assert_eq!(rt; verdict(&code, &[Item::Mask(2)], &[]), Ok(2));
    Ok(())
}

#[test]
fn a_pattern_is_no_clash_with_itself(rt: HostRuntime) -> Result<(), Fail> {
    let code = hamming()?;
    let one = Item::Random(1);
    // in both classes: it is to be corrected, and does not line up twice
    assert_eq!(rt; verdict(&code, &[one], &[one]), Ok(8));
    assert_eq!(rt; verdict(&code, &[Item::Mask(1)], &[one]), Ok(8));
    // listed twice in one class: it lines up twice
    assert_eq!(rt; verdict(&code, &[one, Item::Mask(4)], &[]), Ok(9));
    assert_eq!(rt; verdict(&code, &[], &[Item::Mask(3), Item::Mask(3)]), Ok(3));
    // patterns to flag may have one syndrome
    assert_eq!(rt; verdict(&code, &[], &[Item::Mask(3), Item::Mask(4)]), Ok(3));
    Ok(())
}

#[test]
fn empty_classes_are_accepted(rt: HostRuntime) -> Result<(), Fail> {
    assert_eq!(rt; verdict(&hamming()?, &[], &[]), Ok(1));
    assert_eq!(rt; verdict(&uncovered()?, &[], &[]), Ok(1));
    Ok(())
}

#[test]
fn classes_of_another_width_are_refused(rt: HostRuntime) -> Result<(), Fail> {
    let code = hamming()?;
    let fitting = Random::open(7, 1)?;
    let narrow = Random::open(6, 1)?;
    let wide = Random::open(8, 2)?;
    assert_eq!(rt; judge(&code, &narrow, &fitting), Err(Refusal::WidthsDiffer));
    assert_eq!(rt; judge(&code, &fitting, &wide), Err(Refusal::WidthsDiffer));
    assert_eq!(rt; judge(&code, &wide, &wide), Err(Refusal::WidthsDiffer));
    Ok(())
}
