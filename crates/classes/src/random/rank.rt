ghost use Rattle.std.specs.Prelude.{◌≡◌, ◌+◌, ◌<◌, ◌≤◌, length, slice_index};
ghost use Rattle.code.specs.Limits.{most_columns};
ghost use Rattle.listings.specs.Limits.{most_ones};
ghost use Rattle.listings.specs.Listings.{choose};
ghost use Rattle.classes.specs.Meaning.{words_of};

use crate::random::Random;
use code::weight;

// How many ways there are to choose t of n columns.
pub(crate) fn binomial(n: usize, t: usize) -> usize
    requires wide { n ≤ most_columns }
    requires few { t ≤ most_ones }
    ensures { result ≡ choose n t }
{
    match t {
        0 => 1,
        1 => n,
        2 => (n * n - n) / 2,
        _ => (n * n * n + 2 * n - 3 * (n * n)) / 6,
    }
}

// The top column of the word at the number `rest` among the words of `top` bits with t ones: half of the
// columns left are ruled out at a time. The counts stand in no slice, so it is no `partition_point`.
fn top_column(top: usize, t: usize, rest: usize) -> usize
    requires wide { top ≤ most_columns }
    requires some { 1 ≤ t }
    requires few { t ≤ most_ones }
    requires listed { rest < choose top t }
    ensures below { result < top }
    ensures from { choose result t ≤ rest }
    ensures to { rest < choose (result + 1) t }
{
    if t == 1 {
        return rest;
    }
    let mut low = 0;
    let mut high = top;
    while high - low > 1 {
        let middle = (low + high) / 2;
        if binomial(middle, t) <= rest {
            low = middle;
        } else {
            high = middle;
        }
    }
    low
}

impl Random {
    // The word at the number i, rising: its ones from the highest column down.
    pub(crate) fn word_at(&self, i: usize) -> u64
        requires { i < length (words_of self.now) }
        ensures { result ≡ slice_index (words_of self.now) i }
    {
        let mut word = 0;
        let mut top = self.width.columns();
        let mut rest = i;
        for left in (1..=self.ones).rev() {
            top = top_column(top, left, rest);
            rest -= binomial(top, left);
            word += weight(top);
        }
        word
    }
}
