use std::fmt;

// Errors of one kind, over all columns.
#[derive(Clone, Copy)]
pub(crate) enum Errors {
    Single,
    Double,
    // two columns side by side
    DoubleAdjacent,
    Triple,
}

// The errors by the name that the classes have for them.
impl fmt::Display for Errors {
    fn fmt<W: fmt::Write>(&self, f: &mut fmt::Formatter<W>) -> fmt::Result {
        f.write_str(match self {
            Errors::Single => "random 1",
            Errors::Double => "random 2",
            Errors::DoubleAdjacent => "burst 2",
            Errors::Triple => "random 3",
        })
    }
}
