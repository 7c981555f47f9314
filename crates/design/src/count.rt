ghost use Rattle.std.specs.Prelude.{◌≡◌, IfOk, IfSome, string_bytes};
ghost use Rattle.design.specs.Texts.{class_text, count_line};

use crate::design::Design;
use crate::duty::Duty;
use classes::ErrorClass;
use picture::counted_text;
use std::alloc::{AllocError, Global};
use std::fmt::Display;

// A name, and how many patterns there are of it.
pub(crate) fn count_line<N: Display + Copy>(
    heap: Global,
    name: N,
    count: usize,
) -> Result<String, AllocError>
    ensures { IfSome (N.output name) (λ text. IfOk result (λ t. string_bytes t ≡ count_line text count)) }
{
    let patterns = counted_text(heap, count, "pattern", "patterns")?;
    format!(in heap; "{name}: {patterns}")
}

impl Design {
    // How many patterns are listed for a duty.
    pub fn class_line(&self, heap: Global, duty: Duty) -> Result<String, AllocError>
        ensures { IfOk result (λ t. string_bytes t ≡ class_text self.now duty) }
    {
        count_line(heap, duty, self.class(duty).count())
    }
}
