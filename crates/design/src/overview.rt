ghost use Rattle.std.specs.Prelude.{◌≡◌, length, IfOk, string_bytes};
ghost use Rattle.design.specs.Texts.{classes_text, detectable_of, section_text};

use crate::count::count_line;
use crate::design::Design;
use crate::duty::Duty;
use classes::detectable_count;
use std::alloc::{AllocError, Global};
use std::fmt::Write;

impl Design {
    // The class for a duty: how many patterns it lists, and a line for each of its items.
    fn section(&self, heap: Global, duty: Duty) -> Result<String, AllocError>
        ensures { IfOk result (λ t. string_bytes t ≡ section_text self.now duty) }
    {
        let mut text = self.class_line(heap, duty)?;
        for item in self.class(duty).items() {
            write!(text, "\n  {item}")?;
        }
        Ok(text)
    }

    // How many patterns are detectable.
    fn detectable(&self) -> usize
        ensures { result ≡ length (detectable_of self.now) }
    {
        detectable_count(self.class(Duty::Correct), self.class(Duty::Detect))
    }

    // Both classes with their items, and how many patterns are detectable.
    pub fn classes_text(&self, heap: Global) -> Result<String, AllocError>
        ensures { IfOk result (λ t. string_bytes t ≡ classes_text self.now) }
    {
        let first = self.section(heap, Duty::Correct)?;
        let second = self.section(heap, Duty::Detect)?;
        let last = count_line(heap, "detectable", self.detectable())?;
        format!(in heap; "{first}\n{second}\n{last}")
    }
}
