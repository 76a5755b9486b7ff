//! Bytes in and out: where bytes and files come from, where bytes go, and the lines of a stream. It stands on the
//! definitions of lines in `zw_def`.
//!
//! Each outer object may tell its contents and counts its failed calls. So a caller is told which bytes it was given
//! and which it wrote, and that a failure is answered only where one was counted. `MemSource`, `MemSink` and
//! `MemFolder` tell all, and fail at chosen calls. `RealSource`, `RealSink` and `RealFolder` are the process's own and
//! tell no contents: what the system does is trusted.
#![tactic(auto)]

mod block;
mod folder;
mod lines;
mod output;
mod real;
mod sink;
mod source;

pub use block::Block;
pub use folder::{Fail, Folder, MemFolder};
pub use lines::{LineEnd, Lines, LinesFault};
pub use output::{Out, WriteFault};
pub use real::{RealFolder, RealSink, RealSource};
pub use sink::{MemSink, Sink};
pub use source::{Failed, MemSource, Source};
