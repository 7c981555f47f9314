ghost use Rattle.std.specs.Prelude.{◌≡◌, drop};
ghost use Rattle.std.specs.Iterator.{YieldsFirst, item_count};

use crate::class::ErrorClass;

// The patterns of a class, from the number `next` on.
#[derive(Clone, Copy)]
pub struct PatternsOf<'a, C> {
    class: &'a C,
    next: usize,
}

// The patterns of a class in their order.
pub fn patterns_of<C: ErrorClass>(class: &C) -> PatternsOf<'_, C>
    ensures class { result.class.now ≡ class.now }
    ensures first { result.next ≡ 0 }
{
    PatternsOf { class, next: 0 }
}

impl<'a, C: ErrorClass> Iterator for PatternsOf<'a, C> {
    type Item = u64;

    ghost next_gives = { YieldsFirst (λ s. drop s.next (C.ErrorClass.patterns s.class.now)) };

    ghost remaining = { item_count (λ s. drop s.next (C.ErrorClass.patterns s.class.now)) };

    fn next(&mut self) -> Option<u64> {
        let pattern = self.class.pattern_at(self.next).ok()?;
        self.next += 1;
        Some(pattern)
    }
}
