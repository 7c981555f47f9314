// Tests of the layers below, in a crate of their own so that each layer is proved once.
#![tactic(auto)]

#[cfg(test)]
mod codes;
#[cfg(test)]
mod enumerated;
#[cfg(test)]
mod errors;
#[cfg(test)]
mod naive;
#[cfg(test)]
mod sessions;
