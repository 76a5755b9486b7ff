//! Texts of values: inspect texts, built-in texts, how a fault tells a receiver, texts in double quotes, and the lines of
//! faults. It stands on the definitions of these in `zw_def_world`, on `zw_heap`, whose values it tells, and on `zw_lexer`,
//! which tells whether a symbol is one token. It promises that each is exactly as defined in every world that agrees with
//! the heap, and that a text is refused exactly where it would be longer than a text may be.
#![tactic(auto)]

mod fault;
mod items;
mod line;
mod object;
mod piece;
mod quote;
mod receiver;
mod symbol;
mod value;
mod writer;

pub use fault::{ShowFault, TooLong};
pub use line::{fault_line, quoted, symbol_text};
pub use receiver::receiver_text;
pub use value::{inspect, to_text};
