use design::Duty;
use listings::Item;
use script::{Command, Session};
use std::process::Abort;
use std::test::Fail;

// Runs the lines in turn: each answer is the one beside its line.
fn answers(rt: &(impl Abort + AllocGlobal), script: &[(&str, &str)]) -> Result<(), Fail> {
    let mut session = Session::new(rt.alloc());
    for (i, (line, expected)) in script.iter().enumerate() {
        let answer = session.run(i, line)?;
        assert_eq!(rt; answer.as_str(), *expected);
    }
    Ok(())
}

#[test]
fn numbers_are_read(rt: HostRuntime) -> Result<(), Fail> {
    let script = [
        ("encode 1", "encode 1: 3 (columns 11)"),
        (
            "  encode\t0001  # with a comment",
            "encode 1: 3 (columns 11)",
        ),
        (
            "syndrome 18446744073709551615",
            "refused 10: word 18446744073709551615 has a bit beyond the 2 columns",
        ),
        (
            "syndrome 18446744073709551616",
            "line 3: '18446744073709551616' is not a number",
        ),
        ("syndrome +1", "line 4: '+1' is not a number"),
        ("syndrome 0x1", "line 5: '0x1' is not a number"),
        ("", ""),
        ("# encode 1", ""),
        ("Encode 1", "line 8: unknown command 'Encode'"),
        ("show 1", "line 9: a word too many: '1'"),
    ];
    answers(&rt, &script)
}

#[test]
fn refused_code_leaves_the_old_one(rt: HostRuntime) -> Result<(), Fail> {
    let script = [
        (
            "code 3 5 6 7 1 2 4 data 0 1 2 3",
            "code of 7 columns: 4 data, 3 check",
        ),
        (
            "code 1 1 data 1 1",
            "refused 2: 2 data columns of 2 leave no check column",
        ),
        (
            "code 1 1",
            "line 2: 'data' and the data columns are missing",
        ),
        ("code 1 x data 0", "line 3: 'x' is not a number"),
        ("encode 15", "encode 15: 127 (columns 1111111)"),
    ];
    answers(&rt, &script)
}

#[test]
fn drawing_goes_on_after_a_slip(rt: HostRuntime) -> Result<(), Fail> {
    let script = [
        ("matrix", ""),
        ("1 1", ""),
        (
            "encode 1",
            "line 2: a drawing is open since line 0: a row of 0 and 1 or 'data' is expected",
        ),
        (
            "1 1 1",
            "line 3: the row has 3 columns, the rows above have 2",
        ),
        ("12", "line 4: '2' in a row: a row has only 0 and 1"),
        ("data x", "line 5: 'x' is not a number"),
        ("data 1", "code of 2 columns: 1 data, 1 check"),
        ("data 2", "data 2: 1 (bits 1)"),
    ];
    answers(&rt, &script)
}

// A drawing of two rows, the second one empty, is no code of one row.
#[test]
fn empty_row_is_not_dropped(rt: HostRuntime) -> Result<(), Fail> {
    let script = [
        ("matrix", ""),
        ("11", ""),
        ("00", ""),
        (
            "data 0",
            "line 3: 2 rows are drawn, but 1 data column of 2 leaves 1",
        ),
        ("syndrome 2", "syndrome 2: 1 (rows 1)"),
    ];
    answers(&rt, &script)
}

#[test]
fn open_drawing_is_named_at_the_end(rt: HostRuntime) -> Result<(), Fail> {
    let mut session = Session::new(rt.alloc());
    let quiet = session.finish()?;
    assert!(rt; quiet.is_empty());
    let begun = session.perform(7, Command::Matrix)?;
    assert!(rt; begun.is_empty());
    let ending = session.finish()?;
    assert_eq!(rt;
        ending.as_str(),
        "the script ends, and the drawing that is open since line 7 has no 'data'"
    );
    Ok(())
}

// The line that opens the (7,4) Hamming code, with its answer.
const HAMMING: (&str, &str) = (
    "code 3 5 6 7 1 2 4 data 0 1 2 3",
    "code of 7 columns: 4 data, 3 check",
);

#[test]
fn errors_of_each_kind_are_named(rt: HostRuntime) -> Result<(), Fail> {
    let script = [
        HAMMING,
        ("correct random 1", "correct: 7 patterns"),
        ("correct burst 2", "correct: 13 patterns"),
        ("detect mask 96", "detect: 1 pattern"),
        ("detect random 2", "detect: 22 patterns"),
        (
            "classes",
            "correct: 13 patterns\n  random 1\n  burst 2\ndetect: 22 patterns\n  mask 96\n  random 2\ndetectable: 15 patterns",
        ),
    ];
    answers(&rt, &script)
}

// With no errors named there are no patterns, and none belongs.
#[test]
fn no_errors_are_named_at_first(rt: HostRuntime) -> Result<(), Fail> {
    let script = [
        (
            "classes",
            "correct: 0 patterns\ndetect: 0 patterns\ndetectable: 0 patterns",
        ),
        ("list correct 10", "column 0 1"),
        ("belongs detect 1", "belongs detect 1: no"),
    ];
    answers(&rt, &script)
}

#[test]
fn patterns_are_listed_in_their_order(rt: HostRuntime) -> Result<(), Fail> {
    let script = [
        HAMMING,
        ("correct mask 96", "correct: 1 pattern"),
        ("correct random 1", "correct: 8 patterns"),
        (
            "list correct 3",
            "column 0 1 2 3 4 5 6\n0      0 0 0 0 0 1 1 = 96\n1      1 0 0 0 0 0 0 = 1\n2      0 1 0 0 0 0 0 = 2",
        ),
        ("list correct 0", "column 0 1 2 3 4 5 6"),
        ("detect burst 7", "detect: 1 pattern"),
        (
            "list detect 18446744073709551615",
            "column 0 1 2 3 4 5 6\n0      1 1 1 1 1 1 1 = 127",
        ),
    ];
    answers(&rt, &script)
}

#[test]
fn mask_belongs_to_the_class_that_lists_it(rt: HostRuntime) -> Result<(), Fail> {
    let script = [
        HAMMING,
        ("correct burst 2", "correct: 6 patterns"),
        ("belongs correct 48", "belongs correct 48: yes"),
        ("belongs correct 5", "belongs correct 5: no"),
        ("belongs detect 48", "belongs detect 48: no"),
        (
            "belongs correct 18446744073709551615",
            "belongs correct 18446744073709551615: no",
        ),
    ];
    answers(&rt, &script)
}

#[test]
fn refused_item_is_named_by_its_index(rt: HostRuntime) -> Result<(), Fail> {
    let script = [
        HAMMING,
        (
            "correct random 4",
            "refused 2 at index 0: 4 random upsets at once, a class of 7 columns takes 1 to 3",
        ),
        ("correct random 1", "correct: 7 patterns"),
        (
            "correct burst 1",
            "refused 2 at index 1: a burst of 1 column, a class of 7 columns takes 2 to 7",
        ),
        (
            "correct mask 0",
            "refused 2 at index 1: mask 0 flips no column",
        ),
        (
            "correct mask 200",
            "refused 10 at index 1: mask 200 has a bit beyond the 7 columns",
        ),
        (
            "detect mask 128",
            "refused 10 at index 0: mask 128 has a bit beyond the 7 columns",
        ),
        (
            "classes",
            "correct: 7 patterns\n  random 1\ndetect: 0 patterns\ndetectable: 0 patterns",
        ),
    ];
    answers(&rt, &script)
}

#[test]
fn ninth_item_is_refused(rt: HostRuntime) -> Result<(), Fail> {
    let heap = rt.alloc();
    let mut session = Session::new(heap);
    for i in 0..8 {
        let answer = session.perform(i, Command::Name(Duty::Detect, Item::Random(1)))?;
        assert!(rt; !answer.is_empty());
    }
    let full = session.perform(8, Command::Name(Duty::Detect, Item::Random(1)))?;
    assert_eq!(rt; full.as_str(), "refused 2: a class has at most 8 items");
    let other = session.perform(9, Command::Name(Duty::Correct, Item::Random(1)))?;
    assert_eq!(rt; other.as_str(), "correct: 2 patterns");
    Ok(())
}

#[test]
fn new_code_has_no_errors_named(rt: HostRuntime) -> Result<(), Fail> {
    let script = [
        ("correct random 1", "correct: 2 patterns"),
        ("code 1 1 data", "refused 2: no data column is named"),
        ("belongs correct 2", "belongs correct 2: yes"),
        HAMMING,
        ("belongs correct 2", "belongs correct 2: no"),
        ("correct random 1", "correct: 7 patterns"),
        ("matrix", ""),
        ("11", ""),
        ("data 0", "code of 2 columns: 1 data, 1 check"),
        (
            "classes",
            "correct: 0 patterns\ndetect: 0 patterns\ndetectable: 0 patterns",
        ),
    ];
    answers(&rt, &script)
}

#[test]
fn unreadable_names_of_errors_are_faults(rt: HostRuntime) -> Result<(), Fail> {
    let script = [
        (
            "correct spray 1",
            "line 0: 'spray' is not 'random', 'burst' or 'mask'",
        ),
        ("detect", "line 1: 'random', 'burst' or 'mask' is missing"),
        ("correct random", "line 2: a number is missing"),
        ("correct random x", "line 3: 'x' is not a number"),
        ("correct random 1 2", "line 4: a word too many: '2'"),
        (
            "list errors 1",
            "line 5: 'errors' is not 'correct' or 'detect'",
        ),
        ("list", "line 6: 'correct' or 'detect' is missing"),
        ("list correct", "line 7: a number is missing"),
        ("belongs 48", "line 8: '48' is not 'correct' or 'detect'"),
        ("belongs correct 1 2", "line 9: a word too many: '2'"),
        ("classes 1", "line 10: a word too many: '1'"),
    ];
    answers(&rt, &script)
}

#[test]
fn design_is_judged_and_words_are_decoded(rt: HostRuntime) -> Result<(), Fail> {
    let script = [
        HAMMING,
        ("judge", "judge: accepted, no clash among 1 pattern"),
        ("correct mask 1", "correct: 1 pattern"),
        ("judge", "judge: accepted, no clash among 2 patterns"),
        ("decode 49", "decode 49: 1 (bits 1000), no error found"),
        (
            "decode 48",
            "decode 48: 1 (bits 1000), pattern 1 (columns 1000000) undone",
        ),
        (
            "decode 51",
            "decode 51: flag, no pattern to correct has the syndrome 5 (rows 101)",
        ),
        (
            "decode 128",
            "refused 10: word 128 has a bit beyond the 7 columns",
        ),
        (
            "table",
            "syndrome 0 (rows 000): pattern 0 (columns 0000000)\nsyndrome 3 (rows 110): pattern 1 (columns 1000000)\nflags: 6 of 8 syndromes",
        ),
        ("detect mask 48", "detect: 1 pattern"),
        (
            "judge",
            "refused 7: p = 1 and q = 48 clash\ncolumn 0 1 2 3 4 5 6\nrow 0  1 1 0 1 1 0 0\nrow 1  1 0 1 1 0 1 0\nrow 2  0 1 1 1 0 0 1\nvalue  3 5 6 7 1 2 4\nkind   d d d d c c c\np      ^ . . . . . .\nq      . . . . ^ ^ .\np is to be corrected, q is to be flagged, and both have the syndrome 3 (rows 110)\ndata word 0 (bits 0000) struck by p and data word 1 (bits 1000) struck by q are both received as 1 (columns 1000000)",
        ),
        ("judge 1", "line 11: a word too many: '1'"),
        ("decode", "line 12: a number is missing"),
        ("table 2", "line 13: a word too many: '2'"),
    ];
    answers(&rt, &script)
}
