//! How tables and records by numbers are told by names: what is looked up, assigned, removed and changed by number is so
//! by name, too. It stands on the tellings of `zw_heap` and on the tables and records of `zw_def_world`, has no code, and
//! promises nothing of its own.
#![tactic(auto)]
