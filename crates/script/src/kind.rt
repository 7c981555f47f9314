use listings::Item;
use std::str::FromStr;

// A kind of error, whose number follows.
#[derive(Clone, Copy)]
pub(crate) enum Kind {
    Random,
    Burst,
    Mask,
}

// A word that names no kind.
#[derive(Clone, Copy)]
pub(crate) struct UnknownKind;

impl FromStr for Kind {
    type Err = UnknownKind;

    fn from_str(word: &str) -> Result<Kind, UnknownKind> {
        match word {
            "random" => Ok(Kind::Random),
            "burst" => Ok(Kind::Burst),
            "mask" => Ok(Kind::Mask),
            _ => Err(UnknownKind),
        }
    }
}

impl Kind {
    // The error of this kind and number.
    pub(crate) fn item(self, n: u64) -> Item {
        match self {
            Kind::Random => Item::Random(n as usize),
            Kind::Burst => Item::Burst(n as usize),
            Kind::Mask => Item::Mask(n),
        }
    }
}
