//! Exceptions by their class and message, and the faults of the loader as such exceptions. It stands on the
//! definition of evaluation in `zw_def_world`, on `zw_names` for constant paths and on `zw_path` for paths of files.
//! It promises that each core class of exceptions has one `ErrorKind`, which tells its name, and that `raise_of`
//! gives exactly the class and the message that the definition has for a fault.
#![tactic(auto)]

mod error_kind;
mod load_fault;
mod raise;

pub use error_kind::ErrorKind;
pub use load_fault::LoadFault;
pub use raise::{Raise, raise_of};
