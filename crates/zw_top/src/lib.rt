//! A whole session of `zw`: from its words, a folder and a command stream to all that is written and how it ends. It
//! stands on the definition of a session's output and on all other crates. It promises that what the sink takes is
//! exactly that output, or a front of it where the sink failed or memory ran out; that no more of the stream is taken
//! than may be read, and one byte; and that each fault is told only where a call of that object failed.
#![tactic(auto)]

mod configuration;
mod limits;
mod line;
mod listing;
mod mount;
mod refusal;
mod session;
mod start;
mod status;
mod stream;
mod top;
mod words;

pub use status::Status;
pub use top::run;
