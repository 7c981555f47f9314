ghost use Rattle.std.specs.Prelude.{◌≡◌, Some};
ghost use Rattle.script.specs.Replies.{asked, places};

use std::fmt;

// What a script asks about a word.
#[derive(Clone, Copy)]
pub(crate) enum Question {
    // the code word of a data word
    Encode,
    Syndrome,
    // the data bits of a word
    Data,
}

impl Question {
    // What the bits of the answer belong to.
    pub(crate) fn places(self) -> &'static str
        ensures { result.now ≡ places self }
    {
        match self {
            Question::Encode => "columns",
            Question::Syndrome => "rows",
            Question::Data => "bits",
        }
    }
}

// The command that asks it.
impl fmt::Display for Question {
    ghost output = { λ question. Some (asked question) };

    fn fmt<W: fmt::Write>(&self, f: &mut fmt::Formatter<W>) -> fmt::Result {
        f.write_str(match self {
            Question::Encode => "encode",
            Question::Syndrome => "syndrome",
            Question::Data => "data",
        })
    }
}
