//! Frames of an evaluation (ISO/IEC 30170, 7.1, execution contexts). It stands on the code of methods in `zw_code`, the
//! values of `zw_heap` and the running methods of `zw_ops`. It promises that a frame is told as the definition's frame,
//! and that each change of it is the definition's.
#![tactic(auto)]

mod frame;
mod locals;

pub use frame::Frame;
pub use locals::Locals;
