//! Lemmas of no crate's own, on options, lists, tests of their elements, and texts. It stands on the standard library
//! alone, has no code and no definition that a contract cites, and promises nothing of its own.
#![tactic(auto)]
