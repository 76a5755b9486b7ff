//! Why a configuration is refused.
ghost use Rattle.std.specs.Prelude.{◌≡◌, ◌++◌, IfOk, string_bytes};
ghost use Rattle.zw_def_config.specs.Fault.{fault_text};
ghost use Rattle.zw_config.specs.Fault.{fault_seen};

use std::alloc::{AllocError, Global};
use thiserror::Error;
use zw_base::Fault;

/// Why a configuration is refused. A key within the tables of an array has the array's name before it, as `root.path`.
#[derive(Debug, Drop, PartialEq, Eq, Error)]
pub enum ConfigFault {
    /// The bytes are no document of TOML.
    #[error("not TOML")]
    NotToml,
    /// The key is not known. Of several in one table it is the least in byte order.
    #[error("unknown key {0}")]
    UnknownKey(String),
    /// The value is not of the key's kind, or the key is missing where it has to be there.
    #[error("wrong kind {0}")]
    WrongKind(&'static str),
    /// The text tells no path.
    #[error("bad path {0}")]
    BadPath(&'static str),
    /// The text tells no constant path.
    #[error("bad constant path {0}")]
    BadCPath(&'static str),
    /// A root before has the same path.
    #[error("double root {0}")]
    DoubleRoot(String),
    /// The text is no program.
    #[error("bad Ruby {0}")]
    BadRuby(&'static str),
}

/// Why there is no configuration: it is refused, or there was no memory.
pub type ReadFault = Fault<ConfigFault>;

/// One text behind another.
pub(crate) fn joined(alloc: Global, front: &str, back: &str) -> Result<String, AllocError>
    ensures { IfOk result (λ text. string_bytes text ≡ front.now ++ back.now) }
{
    let mut text = String::from_str(alloc, front)?;
    text.push_str(back)?;
    Ok(text)
}

impl ConfigFault {
    /// What is written for it, as by `Display`.
    pub fn text(&self, alloc: Global) -> Result<String, AllocError>
        ensures { IfOk result (λ text. string_bytes text ≡ fault_text (fault_seen self.now)) }
    {
        match self {
            ConfigFault::NotToml => String::from_str(alloc, "not TOML"),
            ConfigFault::UnknownKey(key) => joined(alloc, "unknown key ", key),
            ConfigFault::WrongKind(key) => joined(alloc, "wrong kind ", key),
            ConfigFault::BadPath(key) => joined(alloc, "bad path ", key),
            ConfigFault::BadCPath(key) => joined(alloc, "bad constant path ", key),
            ConfigFault::DoubleRoot(root) => joined(alloc, "double root ", root),
            ConfigFault::BadRuby(key) => joined(alloc, "bad Ruby ", key),
        }
    }
}

/// The fault of a value that is not of the key's kind.
pub(crate) fn wrong_kind(key: &'static str) -> ReadFault
    ensures { result ≡ Fault.Refused (ConfigFault.WrongKind key.entry) }
{
    Fault::Refused(ConfigFault::WrongKind(key))
}
