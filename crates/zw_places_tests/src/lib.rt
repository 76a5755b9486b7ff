//! Tests of the places of nodes, through the public call. They stand apart from the crate, so that it is not proved a
//! second time for them.
#![tactic(auto)]

#[cfg(test)]
mod statement;
