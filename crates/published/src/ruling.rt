use std::fmt;

// A verdict, by whichever way it was found.
#[derive(Clone, Copy, PartialEq, Eq)]
pub(crate) enum Ruling {
    // no two places clash among so many
    Accepted(usize),
    // two patterns that no decoder can tell apart, and two data words that show it
    Clash {
        number: u8,
        earlier: u64,
        later: u64,
        first: u64,
        second: u64,
    },
    // refused for another reason, by its number
    Refused(u8),
}

impl fmt::Display for Ruling {
    fn fmt<W: fmt::Write>(&self, f: &mut fmt::Formatter<W>) -> fmt::Result {
        match self {
            Ruling::Accepted(places) => write!(f, "accepted, {places} patterns line up"),
            Ruling::Clash {
                number,
                earlier,
                later,
                first,
                second,
            } => write!(
                f,
                "refused {number}: patterns {earlier} and {later} clash, data words {first} and {second}"
            ),
            Ruling::Refused(number) => write!(f, "refused {number}"),
        }
    }
}
