ghost use Rattle.std.specs.Prelude.{◌≡◌, IfOk, string_bytes};
ghost use Rattle.design.specs.Texts.{belongs_text, yes_or_no};

use crate::design::Design;
use crate::duty::Duty;
use classes::ErrorClass;
use std::alloc::{AllocError, Global};

// A `bool` prints itself as true or false, so the lab's words for it stand here.
fn yes_or_no(answer: bool) -> &'static str
    ensures { result.now ≡ yes_or_no answer }
{
    if answer { "yes" } else { "no" }
}

impl Design {
    // Whether the mask is one of the patterns for a duty.
    pub fn belongs_line(&self, heap: Global, duty: Duty, mask: u64) -> Result<String, AllocError>
        ensures { IfOk result (λ t. string_bytes t ≡ belongs_text self.now duty mask) }
    {
        let answer = yes_or_no(self.class(duty).belongs(mask));
        format!(in heap; "belongs {duty} {mask}: {answer}")
    }
}
