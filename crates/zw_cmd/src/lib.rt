//! The commands of the stream: a line, and the lines that belong to it, read as one command or told as the first thing
//! that is wrong with it. It stands on the lines of `zw_io`, on the readers of paths and constant paths, and on the
//! definition of commands in `zw_def_session`. It promises that the next command is exactly the one that is defined,
//! whatever pieces the source gives; that what is told before a failed read stands whole in the bytes taken; and that
//! each fault is told only with its cause.
#![tactic(auto)]

mod command;
mod line;
mod number;
mod request;
mod script;
mod stream;

pub use command::{BadReason, Command, Got};
pub use stream::next_command;
