//! The configuration. It stands on `toml`, which reads the document, on `zw_path`, `zw_names` and `zw_parser` for what its
//! texts tell, on `zw_inflect` and `zw_hooks` for what it is kept as, and on `zw_def_config` for what each key means. It
//! promises that `read` gives exactly the configuration that the bytes say, or exactly the first reason to refuse them.
#![tactic(auto)]

mod callbacks;
mod document;
mod fault;
mod flags;
mod inflection;
mod keys;
mod layout;
mod patterns;
mod roots;
mod value;
mod whole;

pub use document::table_of;
pub use fault::{ConfigFault, ReadFault};
pub use keys::{has_only, value_at};
pub use whole::{Config, read, read_table};
