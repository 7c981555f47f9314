use crate::demand::Demand;
use crate::line_up::{Place, line_up};
use crate::matrix::Matrix;
use crate::patterns::patterns;
use crate::ruling::Ruling;
use crate::weight::weight;
use std::alloc::{AllocError, Global};

// A second way to a verdict, which shares no code with the judge: the whole line-up is written down and sorted by
// syndromes, so that what clashes comes to stand together.

// Two places that clash.
#[derive(Clone, Copy)]
struct Rivals {
    earlier: Place,
    later: Place,
}

pub(crate) fn recounted(
    heap: Global,
    matrix: &Matrix,
    demand: &Demand,
) -> Result<Ruling, AllocError> {
    let correct = patterns(heap, matrix.width, demand.correct)?;
    let detect = patterns(heap, matrix.width, demand.detect)?;
    let mut places = line_up(heap, matrix, &correct, &detect)?;
    places.sort_unstable();
    Ok(match first_clash(&places) {
        Some(rivals) => shown(matrix, rivals),
        None => Ruling::Accepted(places.len()),
    })
}

// Of the sorted places, the smallest later place that clashes, with the smallest earlier place for it.
fn first_clash(places: &[Place]) -> Option<Rivals> {
    places
        .chunk_by(|a, b| a.syndrome == b.syndrome)
        .filter_map(clash_among)
        .min_by_key(|rivals| rivals.later.number)
}

// The same among places of one syndrome.
fn clash_among(places: &[Place]) -> Option<Rivals> {
    places.iter().find_map(|later| {
        let earlier = rival_of(places, later)?;
        Some(Rivals {
            earlier,
            later: *later,
        })
    })
}

// The first place before this one that has another pattern, which is empty or to be corrected.
fn rival_of(places: &[Place], later: &Place) -> Option<Place> {
    places
        .iter()
        .take_while(|earlier| earlier.number < later.number)
        .find(|earlier| earlier.is_corrected && earlier.pattern != later.pattern)
        .copied()
}

// A clash, with the data words 0 and the data bits by which the patterns differ.
fn shown(matrix: &Matrix, rivals: Rivals) -> Ruling {
    let earlier = rivals.earlier.pattern;
    let later = rivals.later.pattern;
    Ruling::Clash {
        number: if rivals.later.is_corrected { 6 } else { 7 },
        earlier,
        later,
        first: 0,
        second: data_bits(matrix, earlier ^ later),
    }
}

// The bits of the word in the data columns.
fn data_bits(matrix: &Matrix, word: u64) -> u64 {
    matrix
        .data_columns
        .iter()
        .enumerate()
        .filter(|(_, column)| word & weight(**column) != 0)
        .fold(0, |bits, (i, _)| bits | weight(i))
}
