// Runs a script from the file that the first argument names, or else from standard input.
#![tactic(auto)]

use script::Session;
use std::alloc::AllocError;
use std::convert::AsStr;
use std::io::{self, BufRead, BufReader};
use std::{env, fs};

// Prints an answer, unless there is nothing to say.
fn say(rt: &HostRuntime, answer: Result<String, AllocError>) -> anyhow::Result<()> {
    let text = answer?;
    if !text.is_empty() {
        rt.println(text.as_str())?;
    }
    Ok(())
}

// Runs the lines of a script in turn.
fn play<S: AsStr + Drop, I: Iterator<Item = io::Result<S>> + Drop>(
    rt: &HostRuntime,
    lines: I,
) -> anyhow::Result<()>
    requires { I.can_next lines }
{
    let mut session = Session::new(rt.alloc());
    for (number, line) in (1..).zip(lines) {
        say(rt, session.run(number, line?.as_str()))?;
    }
    say(rt, session.finish())
}

fn run(rt: &HostRuntime) -> anyhow::Result<()> {
    let heap = rt.alloc();
    match env::args(rt)?.nth(1) {
        Some(path) => {
            let text = fs::read_to_string(rt, path.as_str())?;
            play(rt, text.lines().map(Ok))
        }
        None => play(rt, BufReader::new(heap, rt.stdin())?.lines(heap)),
    }
}

fn main(rt: HostRuntime) -> anyhow::Result<()> {
    run(&rt)
}
