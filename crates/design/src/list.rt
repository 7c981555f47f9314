ghost use Rattle.std.specs.Prelude.{◌≡◌, take, IfOk, string_bytes};
ghost use Rattle.design.specs.Texts.{list_text};

use crate::design::Design;
use crate::duty::Duty;
use classes::{ErrorClass, patterns_of};
use picture::patterns_picture;
use std::alloc::{AllocError, Global};

// The first patterns of any class, as many as the limit where there are so many.
fn first_patterns<C: ErrorClass>(
    heap: Global,
    class: &C,
    limit: usize,
) -> Result<Vec<u64>, AllocError>
    ensures { IfOk result (λ v. v.items ≡ take limit (C.ErrorClass.patterns class.now)) }
{
    patterns_of(class).take(limit).collect(heap)
}

impl Design {
    // The first patterns for a duty as a picture, as many as the limit where there are so many.
    pub fn list_text(&self, heap: Global, duty: Duty, limit: usize) -> Result<String, AllocError>
        ensures { IfOk result (λ t. string_bytes t ≡ list_text self.now duty limit) }
    {
        let patterns = first_patterns(heap, self.class(duty), limit)?;
        patterns_picture(heap, patterns.as_slice(), self.code().column_count())
    }
}
