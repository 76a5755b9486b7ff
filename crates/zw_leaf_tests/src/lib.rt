//! Tests of the small crates through their public calls, a module for each crate. They stand apart from the crates,
//! so that no crate is proved a second time for its tests.
#![tactic(auto)]

#[cfg(test)]
mod args;
#[cfg(test)]
mod base;
#[cfg(test)]
mod fault;
#[cfg(test)]
mod inflect;
#[cfg(test)]
mod io;
#[cfg(test)]
mod meter;
#[cfg(test)]
mod names;
#[cfg(test)]
mod path;
#[cfg(test)]
mod table;
