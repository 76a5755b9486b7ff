//! Tests of copies, through the public calls. They stand apart from the crate, so that it is not proved a second time
//! for them.
#![tactic(auto)]

#[cfg(test)]
mod copies;
