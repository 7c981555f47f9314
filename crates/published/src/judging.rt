use crate::demand::Demand;
use crate::errors::Errors;
use crate::matrix::Matrix;
use crate::ruling::Ruling;
use anyhow::Result;
use classes::Mixed;
use code::{Clash, Code, Refusal};
use judge::judge;
use listings::Item;
use std::alloc::Global;

// The ruling of the judge. A matrix that is no code, or a class that cannot be opened, is an error.
pub(crate) fn judged(heap: Global, matrix: &Matrix, demand: &Demand) -> Result<Ruling> {
    let values = matrix.column_values(heap)?;
    let code = Code::open(&values, &matrix.data_columns)?;
    let first = class_of(heap, matrix.width, demand.correct)?;
    let second = class_of(heap, matrix.width, demand.detect)?;
    Ok(match judge(&code, &first, &second) {
        Ok(places) => Ruling::Accepted(places),
        Err(refusal) => ruling_of(refusal),
    })
}

fn class_of(heap: Global, width: usize, errors: &[Errors]) -> Result<Mixed> {
    let items = errors.iter().map(item_of).collect::<Vec<Item>>(heap)?;
    Ok(Mixed::open(width, &items)?)
}

fn item_of(errors: &Errors) -> Item {
    match errors {
        Errors::Single => Item::Random(1),
        Errors::Double => Item::Random(2),
        Errors::DoubleAdjacent => Item::Burst(2),
        Errors::Triple => Item::Random(3),
    }
}

fn ruling_of(refusal: Refusal) -> Ruling {
    let number = refusal.number();
    match refusal {
        Refusal::CorrectableClash(clash) | Refusal::DetectableClash(clash) => shown(number, clash),
        _ => Ruling::Refused(number),
    }
}

fn shown(number: u8, clash: Clash) -> Ruling {
    Ruling::Clash {
        number,
        earlier: clash.earlier,
        later: clash.later,
        first: clash.first,
        second: clash.second,
    }
}
