//! Tests of the staged tree through its public calls. They stand apart from the crate, so that it is not proved a second
//! time for them.
#![tactic(auto)]

#[cfg(test)]
mod deep;
#[cfg(test)]
mod edits;
#[cfg(test)]
mod mounts;
#[cfg(test)]
mod paths;
