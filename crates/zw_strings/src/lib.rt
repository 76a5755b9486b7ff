//! The primitive methods of String and Symbol (ISO/IEC 30170, 15.2.10 and 15.2.11). It stands on `zw_calls`, which tells
//! how calls end and tests their arguments. It promises that a call ends as defined in every world that agrees with the
//! heap, with the steps that are left; texts and arrays alone are added to the heap, and none that is not paid for. One
//! method alone, `to_sym`, may make a name. Methods over characters take time linear in the text.
#![tactic(auto)]

mod characters;
mod digits;
mod naming;
mod padding;
mod parts;
mod pieces;
pub mod string;
pub mod symbol;
mod text;
mod texts;
mod work;
