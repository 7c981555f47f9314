ghost use Rattle.std.specs.Prelude.{◌≡◌, length, MatchResult};
ghost use Rattle.code.specs.Meaning.{columns_of};
ghost use Rattle.judge.specs.LineUp.{Accepted, FirstPair, line_up};

use crate::ask::syndrome_of;
use crate::line::{candidate, front_pattern, lines_up};
use classes::ErrorClass;
use code::Code;

// The patterns at the two places of a clash.
#[derive(Clone, Copy)]
pub(crate) struct Rivals {
    pub(crate) earlier: u64,
    pub(crate) later: u64,
}

// Looks for the smallest later place that clashes and for it the smallest earlier place. Where no places
// clash it answers how many there are.
pub(crate) fn search<C: ErrorClass, D: ErrorClass>(
    code: &Code,
    first: &C,
    second: &D,
) -> Result<usize, Rivals>
    requires first { C.ErrorClass.wide first.now ≡ length (columns_of code.now) }
    requires second { D.ErrorClass.wide second.now ≡ length (columns_of code.now) }
    ensures { MatchResult result
        (λ m. (m ≡ length (line_up (C.ErrorClass.patterns first.now) (D.ErrorClass.patterns second.now))) × Accepted (columns_of code.now) (C.ErrorClass.patterns first.now) (D.ErrorClass.patterns second.now))
        (λ s. FirstPair (columns_of code.now) (C.ErrorClass.patterns first.now) (D.ErrorClass.patterns second.now) s.earlier s.later) }
{
    let front = first.count() + 1;
    let end = front + second.count();
    let mut places = 0;
    let mut rivals = None;
    'search: for later in 0..end {
        let q = candidate(first, second, later);
        if !lines_up(first, later, q) {
            continue;
        }
        let syndrome = syndrome_of(code, q);
        for earlier in 0..later.min(front) {
            let p = front_pattern(first, earlier);
            if p != q && syndrome_of(code, p) == syndrome {
                rivals = Some(Rivals {
                    earlier: p,
                    later: q,
                });
                break 'search;
            }
        }
        places += 1;
    }
    match rivals {
        Some(rivals) => Err(rivals),
        None => Ok(places),
    }
}
