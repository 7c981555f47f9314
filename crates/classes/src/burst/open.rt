ghost use Rattle.std.specs.Prelude.{IfOk};
ghost use Rattle.listings.specs.Subject.{ListsBurst};
ghost use Rattle.classes.specs.Meaning.{BurstOpened, runs_of};

use crate::burst::Burst;
use crate::width::Width;
use code::Refusal;

impl Burst {
    // The class of the runs of `size` ones within `width` columns. It stays beside `Random::open`: of one function
    // for both, the test, the listing and its law would be parameters, and only the steps are the same.
    pub fn open(width: usize, size: usize) -> Result<Burst, Refusal>
        ensures value { BurstOpened width size result }
        ensures lists { IfOk result (λ c. ListsBurst width size (runs_of c)) }
    {
        let width = Width::open(width)?;
        if !width.takes_run(size) {
            return Err(Refusal::OutOfBounds);
        }
        Ok(Burst { width, size })
    }
}
