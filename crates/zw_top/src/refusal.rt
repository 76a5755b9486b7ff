//! Why a session does not start.
ghost use Rattle.std.specs.Prelude.{◌≡◌, ◌++◌, IfOk, string_bytes};
ghost use Rattle.zw_def.specs.Path.{path_text};
ghost use Rattle.zw_def_thin.specs.Refusal.{line_of_refusal};
ghost use Rattle.zw_top.specs.Refusal.{refusal_seen};

use std::alloc::{AllocError, Global};
use zw_base::Fault;
use zw_config::ConfigFault;
use zw_path::Path;

/// Why a configuration or a tree is refused.
#[derive(Debug, Drop)]
pub(crate) enum Refusal {
    /// There is no configuration.
    NoConfiguration,
    /// The configuration is refused.
    BadConfiguration(ConfigFault),
    /// The configuration has what is not built so far.
    OtherConfiguration,
    /// More paths are listed than may be.
    LongListing,
    /// The tree has more files than it may have.
    ManyFiles,
    /// The file has more bytes than it may have.
    LargeFile(Path),
    /// The tree has more bytes than it may have.
    LargeTree,
    /// A root's namespace, of this text, leads to no module of that very name.
    BadNamespace(String),
}

/// Why a step of the start gives nothing, want of memory aside.
#[derive(Debug, Drop)]
pub(crate) enum Stop {
    /// The session is refused.
    Refusal(Refusal),
    /// A call of the folder failed.
    FolderFault,
}

/// Why a step of the start gives nothing.
pub(crate) type StartFault = Fault<Stop>;

/// The fault of a session that is refused.
pub(crate) fn refused(refusal: Refusal) -> StartFault
    ensures { result ≡ Fault.Refused (Stop.Refusal refusal) }
{
    Fault::Refused(Stop::Refusal(refusal))
}

/// The line that a refusal prints.
pub(crate) fn line_of(alloc: Global, refusal: &Refusal) -> Result<String, AllocError>
    ensures { IfOk result (λ line. string_bytes line ≡ line_of_refusal (refusal_seen refusal.now)) }
{
    match refusal {
        Refusal::NoConfiguration => String::from_str(alloc, "config: missing"),
        Refusal::BadConfiguration(fault) => with_text(alloc, "config: ", &fault.text(alloc)?),
        Refusal::OtherConfiguration => String::from_str(alloc, "config: not built"),
        Refusal::LongListing => String::from_str(alloc, "limit: listing"),
        Refusal::ManyFiles => String::from_str(alloc, "limit: files"),
        Refusal::LargeFile(path) => with_path(alloc, "limit: file ", path),
        Refusal::LargeTree => String::from_str(alloc, "limit: tree"),
        Refusal::BadNamespace(text) => with_text(alloc, "config: namespace ", text),
    }
}

fn with_text(alloc: Global, front: &str, text: &str) -> Result<String, AllocError>
    ensures { IfOk result (λ line. string_bytes line ≡ front.now ++ text.now) }
{
    let mut line = String::from_str(alloc, front)?;
    line.push_str(text)?;
    Ok(line)
}

fn with_path(alloc: Global, front: &str, path: &Path) -> Result<String, AllocError>
    ensures { IfOk result (λ line. string_bytes line ≡ front.now ++ path_text path.now) }
{
    with_text(alloc, front, &path.text(alloc)?)
}
