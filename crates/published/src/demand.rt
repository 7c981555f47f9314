use crate::errors::Errors;
use std::fmt;

// What is asked of a code: the errors that it is to correct, and those that it is to detect.
#[derive(Clone, Copy)]
pub(crate) struct Demand {
    pub(crate) correct: &'static [Errors],
    pub(crate) detect: &'static [Errors],
}

// From single errors alone up to double errors corrected and triple errors detected.
pub(crate) const DEMANDS: [Demand; 6] = [
    Demand {
        correct: &[Errors::Single],
        detect: &[],
    },
    Demand {
        correct: &[Errors::Single],
        detect: &[Errors::Double],
    },
    Demand {
        correct: &[Errors::Single, Errors::DoubleAdjacent],
        detect: &[],
    },
    Demand {
        correct: &[Errors::Single, Errors::DoubleAdjacent],
        detect: &[Errors::Double],
    },
    Demand {
        correct: &[Errors::Single, Errors::Double],
        detect: &[],
    },
    Demand {
        correct: &[Errors::Single, Errors::Double],
        detect: &[Errors::Triple],
    },
];

impl fmt::Display for Demand {
    fn fmt<W: fmt::Write>(&self, f: &mut fmt::Formatter<W>) -> fmt::Result {
        let correct = Listed(self.correct);
        let detect = Listed(self.detect);
        write!(f, "correct {correct}, detect {detect}")
    }
}

// Some errors, named one after the other.
#[derive(Clone, Copy)]
struct Listed(&'static [Errors]);

impl fmt::Display for Listed {
    fn fmt<W: fmt::Write>(&self, f: &mut fmt::Formatter<W>) -> fmt::Result {
        let Some((first, others)) = self.0.split_first() else {
            return f.write_str("nothing");
        };
        write!(f, "{first}")?;
        for other in others {
            write!(f, " and {other}")?;
        }
        Ok(())
    }
}
