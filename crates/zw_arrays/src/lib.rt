//! The primitive methods of Array (ISO/IEC 30170, 15.2.12), and the built-in `==` of values that they compare items by. It
//! stands on `zw_calls`, which tells how calls end and tests their arguments. It promises that a call ends as defined in
//! every world that agrees with the heap, with the steps that are left, each comparison of items paid; arrays and texts
//! alone are added to the heap, and none that is not paid for.
#![tactic(auto)]

pub mod array;
mod array_join;
mod array_kept;
mod array_making;
mod array_parts;
mod array_read;
mod array_sum;
pub mod equality;
mod items;
