// Judges the parity-check matrices of the files that its arguments name, and finds each verdict a second time by
// another way.
#![tactic(auto)]

mod demand;
mod errors;
mod judging;
mod line_up;
mod matrix;
mod patterns;
mod reading;
mod recount;
mod report;
mod ruling;
mod weight;

fn main(rt: HostRuntime) -> anyhow::Result<()> {
    report::run(&rt)
}
