// Tests of the judge, of decoding and of tables, in a crate of their own so that the judge is proved once.
#![tactic(auto)]

#[cfg(test)]
mod designs;
#[cfg(test)]
mod duties;
#[cfg(test)]
mod tables;
#[cfg(test)]
mod verdicts;
