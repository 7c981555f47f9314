ghost use Rattle.std.specs.Prelude.{◌≡◌};
ghost use Rattle.std.specs.List.{slice_get};
ghost use Rattle.code.specs.Refusals.{number_of, values_of, clash_values};

mod reason;

// Two patterns that no decoder can tell apart, and two data words that show it:
// `first` struck by `earlier` and `second` struck by `later` are one received word.
#[derive(Clone, Copy, PartialEq, Eq, Debug)]
pub struct Clash {
    pub earlier: u64,
    pub later: u64,
    pub first: u64,
    pub second: u64,
}

impl Clash {
    // The patterns, the earlier first, and then the data words in the same order.
    pub fn value_at(self, i: usize) -> Option<u64>
        ensures { result ≡ slice_get (clash_values self) i }
    {
        [self.earlier, self.later, self.first, self.second]
            .get(i)
            .copied()
    }
}

// Why the product says no. One enum serves every layer, so that a refusal passes through unchanged.
#[derive(Clone, Copy, PartialEq, Eq, Debug)]
pub enum Refusal {
    // not 2 to 63 column values
    ColumnCount,
    // a number out of bounds
    OutOfBounds,
    // the first mask or item out of bounds, by its index
    OutOfBoundsAt(usize),
    // the first data column number not below n or not above the one before, by its index
    DataColumn(usize),
    // the first column value that needs a row that is not there, by its column
    ColumnValue(usize),
    // the check columns do not hold the r units, each once
    NotUnits,
    // two patterns of one syndrome, the later one to be corrected
    CorrectableClash(Clash),
    // two patterns of one syndrome, the later one to be flagged
    DetectableClash(Clash),
    // widths that do not fit each other
    WidthsDiffer,
    // a number or an address beyond the end
    BeyondEnd,
    // a word or a mask with a bit beyond its width
    TooWide,
    // the first mask or item with a bit beyond the width, by its index
    TooWideAt(usize),
    // the cell to scrub is lost
    LostCell,
    // a table slice with fewer than 2^r entries
    ShortTable,
    // a campaign that has counted all it can
    CampaignFull,
}

impl Refusal {
    // The number by which the product's table knows the refusal. It is a question and no `From`, since a number
    // alone does not stand for a refusal, which may have values too.
    pub fn number(self) -> u8
        ensures { result ≡ number_of self }
    {
        match self {
            Refusal::ColumnCount => 1,
            Refusal::OutOfBounds | Refusal::OutOfBoundsAt(_) => 2,
            Refusal::DataColumn(_) => 3,
            Refusal::ColumnValue(_) => 4,
            Refusal::NotUnits => 5,
            Refusal::CorrectableClash(_) => 6,
            Refusal::DetectableClash(_) => 7,
            Refusal::WidthsDiffer => 8,
            Refusal::BeyondEnd => 9,
            Refusal::TooWide | Refusal::TooWideAt(_) => 10,
            Refusal::LostCell => 11,
            Refusal::ShortTable => 12,
            Refusal::CampaignFull => 13,
        }
    }

    // The i-th of the values that go with the number, counted from 0.
    pub fn value_at(self, i: usize) -> Option<u64>
        ensures { result ≡ slice_get (values_of self) i }
    {
        match self {
            Refusal::OutOfBoundsAt(at)
            | Refusal::DataColumn(at)
            | Refusal::ColumnValue(at)
            | Refusal::TooWideAt(at) => [at as u64].get(i).copied(),
            Refusal::CorrectableClash(clash) | Refusal::DetectableClash(clash) => clash.value_at(i),
            _ => None,
        }
    }
}
