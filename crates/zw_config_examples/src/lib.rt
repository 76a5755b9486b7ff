//! Configurations, computed by the definitions of `zw_def_config`. It has no code: each function's clauses are rows, what the
//! lines of a file are beside the configuration that they say or the line that they print. It stands on the definitions
//! alone, and promises that they say what these rows say.
#![tactic(auto)]

mod calls;
mod names;
mod order;
mod places;
