ghost use Rattle.design.specs.Meaning.{Named};

use crate::design::Design;
use crate::duty::Duty;
use code::Refusal;
use listings::Item;

impl Design {
    // The design with one item more in the class for the duty.
    pub fn with_item(&self, duty: Duty, item: Item) -> Result<Design, Refusal>
        ensures { Named self.now duty item result }
    {
        let class = self.class(duty).with_item(item)?;
        let (first, second) = match duty {
            Duty::Correct => (class, self.second),
            Duty::Detect => (self.first, class),
        };
        Ok(Design {
            code: self.code,
            first,
            second,
        })
    }
}
