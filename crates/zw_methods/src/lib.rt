//! Tables of methods, the lines in which they are looked for, and what `include` and `extend` change. It stands on
//! `zw_heap` for modules and values, on `zw_calls` for the identities of primitive methods, on `zw_consts` for tables by modules and names and for ancestors, and on the
//! definitions of lines in `zw_def_world`. It promises that a method that is found is the first of its name in the line,
//! that each change is one of that one table, or of that one module's includes or extensions, and that a frozen module
//! never changes.
#![tactic(auto)]

mod change;
mod fault;
mod law;
mod line;
mod method;
mod methods;

pub use change::{extend, include, is_one_of};
pub use fault::{MethodFault, MethodRefusal};
pub use law::tells_line;
pub use line::line_of;
pub use method::{BodyId, Found, Method, MethodBody, ModuleLine};
pub use methods::Methods;
