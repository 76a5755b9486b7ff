//! Tests of the reader of commands through its public call: streams, and what they are read as.
#![tactic(auto)]

#[cfg(test)]
mod arguments;
#[cfg(test)]
mod faults;
#[cfg(test)]
mod large;
#[cfg(test)]
mod lines;
#[cfg(test)]
mod order;
#[cfg(test)]
mod told;
