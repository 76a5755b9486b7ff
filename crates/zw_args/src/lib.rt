//! The command line. It stands on `clap`, which reads the words as one simple command, and on `zw_path`. It
//! promises that `words::settings` gives exactly what accepted words say, and refuses words exactly where `clap`
//! does for another cause than want of memory, or where CONFIG is no path.
#![tactic(auto)]

pub mod words;

use thiserror::Error;
use zw_base::Fault;
use zw_path::Path;

/// What the words say.
#[derive(Drop)]
pub struct Settings {
    /// How many steps a command that evaluates may take: 1 to 1,000,000,000.
    pub budget: u64,
    /// Whether a word gives the budget.
    pub gives_budget: bool,
    /// Whether loads are logged.
    pub log: bool,
    /// Whether steps are told.
    pub steps: bool,
    /// Whether the tree is loaded before the first command.
    pub eager: bool,
    /// Where the configuration stands.
    pub config: Path,
}

/// The words are refused.
#[derive(Clone, Copy, Debug, PartialEq, Eq, Drop, Error)]
#[error("usage: zw [--budget N] [--log] [--steps] [--eager] CONFIG")]
pub struct Usage;

/// Why there are no settings.
pub type ArgsFault = Fault<Usage>;
