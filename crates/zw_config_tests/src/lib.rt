//! Tests of the reader of configurations through its public calls: texts with what they say or with their first refusal, by
//! hand from the rules for each key. They stand apart from the reader, so that it is not proved a second time for them.
#![tactic(auto)]

#[cfg(test)]
mod accepted;
#[cfg(test)]
mod order;
#[cfg(test)]
mod refused;
