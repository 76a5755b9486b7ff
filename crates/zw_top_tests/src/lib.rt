//! Tests of whole sessions, and of the first path's evaluator, through their public calls.
#![tactic(auto)]

#[cfg(test)]
mod large;
#[cfg(test)]
mod layout;
#[cfg(test)]
mod session;
#[cfg(test)]
mod thin;
