//! Tests of the scan of a tree and of its map, through the public calls. They stand apart from the crates, so that these
//! are not proved a second time for them.
#![tactic(auto)]

#[cfg(test)]
mod case;
#[cfg(test)]
mod rows;
#[cfg(test)]
mod shown;
