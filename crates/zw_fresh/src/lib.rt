//! The law that a reloaded session answers as a fresh process: what it writes after a reload is, up to the first
//! command that names an older variable, what a process writes that begins over the tree that the reload mounts. It
//! stands on the definitions of evaluation and of sessions alone, has no code, and no code carries the law yet.
//!
//! Two worlds are alike where they differ in the numbers of their setups and in what is older alone (`specs/`); each
//! kind of node, each primitive method, look-up, load and callback keeps them alike (`proofs/`). `reload_is_fresh` states
//! the law for a world that came from an image, `reached_is_fresh` for each session that commands reach from an opening,
//! `reload_is_opening` and `reload_serves_as_opening` for two processes that open, one of which reloads; each for all
//! commands, further reloads among them.
//!
//! The same relation and the same induction compare two worlds of which one has loaded keys that are idle in the other:
//! `plain_is_alike` states for each setting of that kind (`Calm`) that plain programs answer alike, if methods are plain
//! and the loads of those keys are owed. That calm trees give such settings is not stated yet. `mountable_is_mounted` states
//! that some folder mounts each tree that a folder can hold.
#![tactic(auto)]

mod again;
mod calm;
mod law;
mod mount;
mod reached;

pub use again::{reload_is_opening, reload_serves_as_opening};
pub use calm::{Calm, plain_is_alike};
pub use law::reload_is_fresh;
pub use mount::mountable_is_mounted;
pub use reached::reached_is_fresh;
