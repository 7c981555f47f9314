ghost use Rattle.std.specs.Prelude.{◌≡◌, ◌^◌, ◌≤◌, true, false, MatchResult};
ghost use Rattle.code.specs.Limits.{least_columns, most_columns};
ghost use Rattle.code.specs.declared.refusal.Refusal.TheVariants.{OutOfBounds};
ghost use Rattle.listings.specs.Items.{good_ones, good_run, good_size};
ghost use Rattle.classes.specs.Opening.{good_width};

use code::{LEAST_COLUMNS, MOST_COLUMNS, Refusal, weight};
use listings::{LEAST_RUN, MOST_ONES, MOST_RUN};

// How many columns the words of a class have: as many as a code may have.
#[derive(Clone, Copy)]
pub(crate) struct Width {
    columns: usize,
    ghost low: { least_columns ≤ columns },
    ghost high: { columns ≤ most_columns },
}

impl Width {
    pub(crate) fn open(columns: usize) -> Result<Width, Refusal>
        ensures { MatchResult result (λ w. (good_width columns ≡ true) × (w.columns ≡ columns)) (λ e. (good_width columns ≡ false) × (e ≡ OutOfBounds)) }
    {
        if columns < LEAST_COLUMNS || columns > MOST_COLUMNS {
            return Err(Refusal::OutOfBounds);
        }
        Ok(Width { columns })
    }

    pub(crate) fn least() -> Width
        ensures { result.columns ≡ least_columns }
    {
        Width {
            columns: LEAST_COLUMNS,
        }
    }

    pub(crate) fn columns(self) -> usize
        ensures value { result ≡ self.columns }
        ensures low { least_columns ≤ result }
        ensures high { result ≤ most_columns }
    {
        self.columns
    }

    // The first number that is too wide.
    pub(crate) fn end(self) -> u64
        ensures { result ≡ 2 ^ self.columns }
    {
        weight(self.columns)
    }

    // Whether errors of this size may be named, where these are the least and the most.
    fn takes(self, least: usize, most: usize, size: usize) -> bool
        ensures { result ≡ good_size least most self.columns size }
    {
        size >= least && size <= most && size <= self.columns
    }

    // Whether random errors may have so many ones.
    pub(crate) fn takes_ones(self, ones: usize) -> bool
        ensures { result ≡ good_ones self.columns ones }
    {
        self.takes(1, MOST_ONES, ones)
    }

    // Whether bursts may have so many ones.
    pub(crate) fn takes_run(self, size: usize) -> bool
        ensures { result ≡ good_run self.columns size }
    {
        self.takes(LEAST_RUN, MOST_RUN, size)
    }
}
