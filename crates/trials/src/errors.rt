use crate::enumerated;
use classes::{Burst, ErrorClass, Listed, Mixed, Random, detectable_count};
use code::Refusal;
use listings::{Item, MOST_PATTERNS};
use std::process::Abort;
use std::test::Fail;

// The class lists just these words: each at its number, none from the count on, and it says so of each.
fn lists<C: ErrorClass>(rt: &impl Abort, class: &C, words: &[u64]) {
    assert_eq!(rt; class.count(), words.len());
    for (i, word) in words.iter().enumerate() {
        assert_eq!(rt; class.pattern_at(i), Ok(*word));
        assert!(rt; class.belongs(*word));
    }
    assert_eq!(rt; class.pattern_at(words.len()), Err(Refusal::BeyondEnd));
    assert_eq!(rt; class.pattern_at(usize::MAX), Err(Refusal::BeyondEnd));
}

// How many of the words below `end` belong to the class.
fn belonging<C: ErrorClass>(class: &C, end: u64) -> usize {
    (0..end).filter(|word| class.belongs(*word)).count()
}

fn random_refused(width: usize, ones: usize) -> Option<Refusal> {
    Random::open(width, ones).err()
}

fn burst_refused(width: usize, size: usize) -> Option<Refusal> {
    Burst::open(width, size).err()
}

fn mixed_refused(width: usize, items: &[Item]) -> Option<Refusal> {
    Mixed::open(width, items).err()
}

fn listed_refused(width: usize, masks: &[u64]) -> Option<Refusal> {
    Listed::open(width, masks).err()
}

#[test]
fn random_is_bounded(rt: HostRuntime) {
    let outside = Some(Refusal::OutOfBounds);
    assert_eq!(rt; random_refused(2, 3), outside);
    assert_eq!(rt; random_refused(1, 1), outside);
    assert_eq!(rt; random_refused(2, 1), None);
    assert_eq!(rt; random_refused(2, 2), None);
    assert_eq!(rt; random_refused(3, 3), None);
    assert_eq!(rt; random_refused(63, 1), None);
    assert_eq!(rt; random_refused(63, 3), None);
    assert_eq!(rt; random_refused(64, 3), outside);
    assert_eq!(rt; random_refused(63, 0), outside);
    assert_eq!(rt; random_refused(63, 4), outside);
    assert_eq!(rt; random_refused(usize::MAX, usize::MAX), outside);
}

#[test]
fn burst_is_bounded(rt: HostRuntime) {
    let outside = Some(Refusal::OutOfBounds);
    assert_eq!(rt; burst_refused(1, 2), outside);
    assert_eq!(rt; burst_refused(2, 1), outside);
    assert_eq!(rt; burst_refused(2, 2), None);
    assert_eq!(rt; burst_refused(2, 3), outside);
    assert_eq!(rt; burst_refused(7, 8), outside);
    assert_eq!(rt; burst_refused(8, 8), None);
    assert_eq!(rt; burst_refused(63, 8), None);
    assert_eq!(rt; burst_refused(63, 9), outside);
    assert_eq!(rt; burst_refused(64, 8), outside);
}

#[test]
fn random_lists_every_word(rt: HostRuntime) -> Result<(), Fail> {
    let heap = rt.alloc();
    for width in 2..11 {
        let end = 1 << width;
        for ones in 1..=width.min(3) {
            let class = Random::open(width, ones)?;
            let words = enumerated::words(heap, end, |word| enumerated::ones(word) == ones)?;
            assert_eq!(rt; class.width(), width);
            lists(&rt, &class, &words);
            // none but these, and none that is wider
            assert_eq!(rt; belonging(&class, 4 * end), words.len());
        }
    }
    Ok(())
}

#[test]
fn random_of_widest_words(rt: HostRuntime) -> Result<(), Fail> {
    let words = enumerated::triples(rt.alloc(), 63)?;
    let class = Random::open(63, 3)?;
    assert_eq!(rt; class.count(), 39_711);
    lists(&rt, &class, &words);
    assert_eq!(rt; class.pattern_at(39_710), Ok(7 << 60));
    assert!(rt; !class.belongs(7 << 61));
    Ok(())
}

#[test]
fn burst_lists_every_run(rt: HostRuntime) -> Result<(), Fail> {
    let heap = rt.alloc();
    for width in 2..11 {
        let end = 1 << width;
        for size in 2..=width.min(8) {
            let class = Burst::open(width, size)?;
            let words = enumerated::words(heap, end, |word| enumerated::is_run(word, size))?;
            assert_eq!(rt; class.width(), width);
            lists(&rt, &class, &words);
            assert_eq!(rt; belonging(&class, 4 * end), words.len());
        }
    }
    let widest = Burst::open(63, 8)?;
    assert_eq!(rt; widest.count(), 56);
    assert_eq!(rt; widest.pattern_at(55), Ok(255 << 55));
    assert_eq!(rt; widest.pattern_at(56), Err(Refusal::BeyondEnd));
    assert!(rt; !widest.belongs(255 << 56));
    assert!(rt; !widest.belongs(0));
    Ok(())
}

// A listed class lists its masks, and still does after another opening is refused for the first of
// the masks `others`.
fn keeps_masks<'a>(rt: &impl Abort, masks: &'a [u64], others: &'a [u64]) -> Result<(), Fail> {
    let class = Listed::open(7, masks)?;
    assert_eq!(rt; class.width(), 7);
    lists(rt, &class, masks);
    assert_eq!(rt; listed_refused(2, others), Some(Refusal::TooWideAt(0)));
    assert_eq!(rt; class.width(), 7);
    lists(rt, &class, masks);
    assert!(rt; !class.belongs(0));
    assert!(rt; !class.belongs(4));
    assert!(rt; !class.belongs(u64::MAX));
    Ok(())
}

#[test]
fn listed_keeps_order_and_repeats(rt: HostRuntime) -> Result<(), Fail> {
    keeps_masks(&rt, &[64, 9, 9, 3, 127], &[5])
}

#[test]
fn fresh_classes_list_nothing(rt: HostRuntime) {
    let listed = Listed::default();
    assert_eq!(rt; listed.width(), 2);
    lists(&rt, &listed, &[]);
    assert!(rt; !listed.belongs(1));
    let mixed = Mixed::default();
    assert_eq!(rt; mixed.width(), 2);
    lists(&rt, &mixed, &[]);
    assert!(rt; !mixed.belongs(1));
}

#[test]
fn listed_refuses_first_bad_mask(rt: HostRuntime) {
    assert_eq!(rt; listed_refused(1, &[1]), Some(Refusal::OutOfBounds));
    assert_eq!(rt; listed_refused(64, &[0]), Some(Refusal::OutOfBounds));
    assert_eq!(rt;
        listed_refused(2, &[3, 0, 4]),
        Some(Refusal::OutOfBoundsAt(1))
    );
    assert_eq!(rt; listed_refused(2, &[3, 4, 0]), Some(Refusal::TooWideAt(1)));
    assert_eq!(rt; listed_refused(63, &[1 << 63]), Some(Refusal::TooWideAt(0)));
    assert_eq!(rt; listed_refused(63, &[(1 << 63) - 1]), None);
    assert_eq!(rt; listed_refused(2, &[]), None);
}

#[test]
fn listed_is_bounded(rt: HostRuntime) -> Result<(), Fail> {
    let most = vec![in rt.alloc(); 1u64; MOST_PATTERNS]?;
    assert_eq!(rt; listed_refused(2, &most), None);
    // the count comes before the masks
    let more = vec![in rt.alloc(); 0u64; MOST_PATTERNS + 1]?;
    assert_eq!(rt; listed_refused(2, &more), Some(Refusal::OutOfBounds));
    Ok(())
}

#[test]
fn mixed_lists_items_in_turn(rt: HostRuntime) -> Result<(), Fail> {
    let items = [
        Item::Burst(3),
        Item::Mask(9),
        Item::Random(1),
        Item::Mask(9),
    ];
    let class = Mixed::open(4, &items)?;
    assert_eq!(rt; class.width(), 4);
    lists(&rt, &class, &[7, 14, 9, 1, 2, 4, 8, 9]);
    assert_eq!(rt; belonging(&class, 64), 7);
    Ok(())
}

#[test]
fn mixed_grows_by_items(rt: HostRuntime) -> Result<(), Fail> {
    let mut class = Mixed::open(5, &[])?;
    lists(&rt, &class, &[]);
    for i in 0..8 {
        assert_eq!(rt; class.items().len(), i);
        assert_eq!(rt;
            class.with_item(Item::Mask(32)).err(),
            Some(Refusal::TooWideAt(i))
        );
        assert_eq!(rt;
            class.with_item(Item::Random(4)).err(),
            Some(Refusal::OutOfBoundsAt(i))
        );
        class = class.with_item(Item::Mask(i as u64 + 1))?;
    }
    lists(&rt, &class, &[1, 2, 3, 4, 5, 6, 7, 8]);
    // nine are too many, whatever the ninth is
    assert_eq!(rt;
        class.with_item(Item::Mask(1)).err(),
        Some(Refusal::OutOfBounds)
    );
    assert_eq!(rt;
        class.with_item(Item::Mask(0)).err(),
        Some(Refusal::OutOfBounds)
    );
    Ok(())
}

#[test]
fn mixed_refuses_first_bad_item(rt: HostRuntime) {
    let one = Item::Random(1);
    assert_eq!(rt; mixed_refused(7, &[one; 8]), None);
    assert_eq!(rt; mixed_refused(7, &[one; 9]), Some(Refusal::OutOfBounds));
    assert_eq!(rt;
        mixed_refused(64, &[Item::Mask(0)]),
        Some(Refusal::OutOfBounds)
    );
    assert_eq!(rt; mixed_refused(1, &[]), Some(Refusal::OutOfBounds));
    assert_eq!(rt;
        mixed_refused(2, &[one, Item::Random(3)]),
        Some(Refusal::OutOfBoundsAt(1))
    );
    assert_eq!(rt;
        mixed_refused(9, &[one, Item::Random(0)]),
        Some(Refusal::OutOfBoundsAt(1))
    );
    assert_eq!(rt;
        mixed_refused(9, &[one, one, Item::Burst(9)]),
        Some(Refusal::OutOfBoundsAt(2))
    );
    assert_eq!(rt;
        mixed_refused(9, &[Item::Burst(1), Item::Mask(0)]),
        Some(Refusal::OutOfBoundsAt(0))
    );
    assert_eq!(rt;
        mixed_refused(9, &[one, Item::Mask(0)]),
        Some(Refusal::OutOfBoundsAt(1))
    );
    assert_eq!(rt;
        mixed_refused(9, &[one, Item::Mask(512)]),
        Some(Refusal::TooWideAt(1))
    );
}

// So many of the masks are detectable beside the class: one listed twice counts twice, and one in both classes
// does not count.
fn listed_detectable<C: ErrorClass>(
    rt: &impl Abort,
    class: &C,
    masks: &[u64],
    count: usize,
) -> Result<(), Fail> {
    let listed = Listed::open(7, masks)?;
    assert_eq!(rt; detectable_count(class, &listed), count);
    assert_eq!(rt; detectable_count(&listed, &listed), 0);
    Ok(())
}

#[test]
fn detectable_patterns_are_counted(rt: HostRuntime) -> Result<(), Fail> {
    let single = Random::open(7, 1)?;
    let double = Random::open(7, 2)?;
    let neighbours = Burst::open(7, 2)?;
    assert_eq!(rt; detectable_count(&single, &double), 21);
    assert_eq!(rt; detectable_count(&neighbours, &double), 15);
    assert_eq!(rt; detectable_count(&double, &neighbours), 0);
    listed_detectable(&rt, &neighbours, &[3, 5, 5, 1], 3)?;
    listed_detectable(&rt, &double, &[3, 5, 5, 1], 1)
}
