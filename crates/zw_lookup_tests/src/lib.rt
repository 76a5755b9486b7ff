//! Tests of constants, ancestors and methods through their public calls, a module for each kind. They stand apart from
//! the crates, so that no crate is proved a second time for its tests. The expected lines were written down by hand, from
//! the sentence that tells the ancestors of a module.
#![tactic(auto)]

#[cfg(test)]
mod constant;
#[cfg(test)]
mod large;
#[cfg(test)]
mod lattice;
#[cfg(test)]
mod method;
#[cfg(test)]
mod plan;
