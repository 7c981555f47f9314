ghost use Rattle.std.specs.Prelude.{◌≡◌, ℕ, List, [], ◌∷◌, ◌++◌, IfOk, None, string_bytes, codes, decimal, OnErr, OnOk};
ghost use Rattle.script.specs.Ending.{ending};
ghost use Rattle.script.specs.Performed.{Begins, Performed};
ghost use Rattle.script.specs.Ran.{Did, Ran};

use crate::answer::{data_answer, encode_answer, show_answer, syndrome_answer};
use crate::change::{closed, named, opened};
use crate::command::{Command, Stroke, read_command, read_stroke};
use crate::drawing::Drawing;
use crate::fault::Fault;
use crate::reply::unfinished_line;
use crate::row::row_bits;
use code::Code;
use design::Design;
use report::{decoded_text, table_text, verdict_text};
use std::alloc::{AllocError, Global};

// A script on its way: the code that it works with, the errors that are named for it, and the drawing that is open.
#[derive(Drop)]
pub struct Session {
    heap: Global,
    design: Design,
    drawing: Option<Drawing>,
}

impl Session {
    pub fn new(heap: Global) -> Session
        ensures { Begins (1 ∷ (1 ∷ [])) (0 ∷ []) result.design × (result.drawing ≡ None) }
    {
        Session {
            heap,
            design: Design::new(Code::default()),
            drawing: None,
        }
    }

    // Runs a line, and gives the text that answers it: an empty one where there is nothing to say.
    pub fn run(&mut self, number: usize, line: &str) -> Result<String, AllocError>
        ensures ran { IfOk result (λ t. Ran number self.old.design self.old.drawing self.new.design self.new.drawing (string_bytes t)) }
        ensures same { OnErr result (self.new ≡ self.old) }
    {
        self.obey(number, line).or_else(|fault| match fault {
            Fault::Memory => Err(AllocError),
            fault => fault_line(self.heap, number, fault),
        })
    }

    // What is to say at the end of the script.
    pub fn finish(&self) -> Result<String, AllocError>
        ensures { IfOk result (λ t. string_bytes t ≡ ending self.now.drawing) }
    {
        match &self.drawing {
            Some(drawing) => unfinished_line(self.heap, drawing.since()),
            None => Ok(String::new(self.heap)),
        }
    }

    // Carries out a command that was read from line `number`, and gives the text that answers it.
    pub fn perform(&mut self, number: usize, command: Command) -> Result<String, AllocError>
        ensures done { IfOk result (λ t. Performed number self.old.design self.old.drawing command self.new.design self.new.drawing (string_bytes t)) }
        ensures same { OnErr result (self.new ≡ self.old) }
    {
        // a closed list of commands, each with data of its own, is a match and no table
        match command {
            Command::Nothing => Ok(String::new(self.heap)),
            Command::Matrix => {
                self.drawing = Some(Drawing::new(self.heap, number));
                Ok(String::new(self.heap))
            }
            Command::Open { values, numbers } => {
                let (design, text) = opened(self.heap, &self.design, &values, &numbers)?;
                self.design = design;
                Ok(text)
            }
            Command::Show => show_answer(self.heap, self.design.code()),
            Command::Encode(word) => encode_answer(self.heap, self.design.code(), word),
            Command::Syndrome(word) => syndrome_answer(self.heap, self.design.code(), word),
            Command::Data(word) => data_answer(self.heap, self.design.code(), word),
            Command::Name(duty, item) => {
                let (design, text) = named(self.heap, &self.design, duty, item)?;
                self.design = design;
                Ok(text)
            }
            Command::Classes => self.design.classes_text(self.heap),
            Command::Patterns(duty, limit) => self.design.list_text(self.heap, duty, limit),
            Command::Belongs(duty, mask) => self.design.belongs_line(self.heap, duty, mask),
            Command::Judge => verdict_text(self.heap, &self.design),
            Command::Decode(word) => decoded_text(self.heap, &self.design, word),
            Command::Table => table_text(self.heap, &self.design),
        }
    }

    // A line: a row or the end of the drawing where one is open, and else a command.
    fn obey<'a>(&mut self, number: usize, line: &'a str) -> Result<String, Fault<'a>>
        ensures did { IfOk result (λ t. Did number self.old.design self.old.drawing self.new.design self.new.drawing (string_bytes t)) }
        ensures same { OnErr result (self.new ≡ self.old) }
    {
        let Some(drawing) = &mut self.drawing else {
            let command = read_command(self.heap, line)?;
            return Ok(self.perform(number, command)?);
        };
        match read_stroke(self.heap, drawing.since(), line)? {
            Stroke::Nothing => {}
            Stroke::Row(text) => {
                let row = row_bits(self.heap, text)?;
                drawing.add_row(&row)?;
            }
            Stroke::Data(numbers) => {
                let (design, text) = closed(self.heap, &self.design, drawing, number, &numbers)?;
                self.design = design;
                self.drawing = None;
                return Ok(text);
            }
        }
        Ok(String::new(self.heap))
    }
}

// A line that cannot be read, by its number and what is wrong with it.
fn fault_line(heap: Global, number: usize, fault: Fault<'_>) -> Result<String, AllocError>
    ensures { IfOk result (λ t. (what : List ℕ) × (string_bytes t ≡ codes "line " ++ (decimal number ++ (codes ": " ++ what)))) }
{
    let what = fault.to_string(heap)?;
    format!(in heap; "line {number}: {what}")
}
