ghost use Rattle.std.specs.Prelude.{Some};
ghost use Rattle.code.specs.Reasons.{reason};

use super::Refusal;
use std::error::Error;
use std::fmt;

// Why the product says no, in words; a layer that knows the numbers that were refused can say more.
impl fmt::Display for Refusal {
    ghost output = { λ e. Some (reason e) };

    fn fmt<W: fmt::Write>(&self, f: &mut fmt::Formatter<W>) -> fmt::Result {
        match self {
            Refusal::ColumnCount => f.write_str("the number of columns is out of bounds"),
            Refusal::OutOfBounds | Refusal::OutOfBoundsAt(_) => {
                f.write_str("a number is out of bounds")
            }
            Refusal::DataColumn(_) => f.write_str(
                "a data column is not below the number of columns, or not above the one before",
            ),
            Refusal::ColumnValue(_) => f.write_str("a column value needs a row that is not there"),
            Refusal::NotUnits => f.write_str("the check columns do not hold the units, each once"),
            Refusal::CorrectableClash(clash) => write!(
                f,
                "patterns {} and {} have one syndrome, and the second is to be corrected",
                clash.earlier, clash.later
            ),
            Refusal::DetectableClash(clash) => write!(
                f,
                "pattern {} is to be flagged and has the syndrome of {}",
                clash.later, clash.earlier
            ),
            Refusal::WidthsDiffer => f.write_str("the widths do not fit each other"),
            Refusal::BeyondEnd => f.write_str("a number or an address lies beyond the end"),
            Refusal::TooWide | Refusal::TooWideAt(_) => {
                f.write_str("a word has a bit beyond its width")
            }
            Refusal::LostCell => f.write_str("the cell to scrub is lost"),
            Refusal::ShortTable => f.write_str("the table has no entry for some syndromes"),
            Refusal::CampaignFull => f.write_str("the campaign has counted all that it can"),
        }
    }
}

impl Error for Refusal {}
