ghost use Rattle.std.specs.Prelude.{Some};
ghost use Rattle.design.specs.Reading.{ReadsDuty};
ghost use Rattle.design.specs.Texts.{duty_name};

use std::fmt;
use std::str::FromStr;

// What is asked of a code for a class of errors.
#[derive(Clone, Copy, PartialEq, Eq, Debug)]
pub enum Duty {
    // to find the pattern and put the word right
    Correct,
    // to say that the word was struck
    Detect,
}

// A duty as the lab's script calls it.
impl fmt::Display for Duty {
    ghost output = { λ duty. Some (duty_name duty) };

    fn fmt<W: fmt::Write>(&self, f: &mut fmt::Formatter<W>) -> fmt::Result {
        f.write_str(match self {
            Duty::Correct => "correct",
            Duty::Detect => "detect",
        })
    }
}

// A text that names no duty.
#[derive(Clone, Copy, PartialEq, Eq, Debug)]
pub struct UnknownDuty;

impl FromStr for Duty {
    type Err = UnknownDuty;

    ghost from_str_gives = { ReadsDuty };

    fn from_str(text: &str) -> Result<Duty, UnknownDuty> {
        match text {
            "correct" => Ok(Duty::Correct),
            "detect" => Ok(Duty::Detect),
            _ => Err(UnknownDuty),
        }
    }
}
