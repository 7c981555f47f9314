ghost use Rattle.std.specs.Prelude.{IfOk};
ghost use Rattle.listings.specs.Subject.{ListsRandom};
ghost use Rattle.classes.specs.Meaning.{RandomOpened, words_of};

use crate::random::Random;
use crate::width::Width;
use code::Refusal;

impl Random {
    // The class of the words of `width` bits with `ones` ones. It stays beside `Burst::open`, which says why.
    pub fn open(width: usize, ones: usize) -> Result<Random, Refusal>
        ensures value { RandomOpened width ones result }
        ensures lists { IfOk result (λ c. ListsRandom width ones (words_of c)) }
    {
        let width = Width::open(width)?;
        if !width.takes_ones(ones) {
            return Err(Refusal::OutOfBounds);
        }
        Ok(Random { width, ones })
    }
}
