//! Callbacks as data: which of them run when, and in which order. It stands on the programs of `zw_ast` and on the names
//! of `zw_names`. It promises the places of exactly those that the definition has for a key, in its order.
#![tactic(auto)]

mod hook;
mod hooks;
#[cfg(test)]
mod tests;

pub use hook::{Hook, HookKind};
pub use hooks::Hooks;
