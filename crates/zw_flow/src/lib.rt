//! How evaluations end, and what is said of calls that evaluate: each does what an act of the definition does. It stands on
//! the values of `zw_heap`, the faults of `zw_io` and the acts of `zw_def_world`. It has almost no code; its lemmas carry
//! what calls do from one call to the next, for the crates above.
#![tactic(auto)]

mod fault;
mod flow;

pub use fault::RunFault;
pub use flow::Flow;
