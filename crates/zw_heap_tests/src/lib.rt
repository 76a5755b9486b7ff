//! Tests of heaps through their public calls, a module for each kind. They stand apart from the crate, so that no crate
//! is proved a second time for its tests. The expected texts were written down by hand.
#![tactic(auto)]

#[cfg(test)]
mod heap;
#[cfg(test)]
mod limit;
#[cfg(test)]
mod object;
