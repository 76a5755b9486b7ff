//! The faults of the loader.
ghost use Rattle.std.specs.Prelude.{◌≡◌, List, IfOk, string_bytes};
ghost use Rattle.zw_def.specs.Expected.{wrong_name_text};
ghost use Rattle.zw_def.specs.Names.{AreNamed, texts_of};
ghost use Rattle.zw_def.specs.Text.{Text};
ghost use Rattle.zw_def_world.specs.Log.{not_defined_text};
ghost use Rattle.zw_fault.specs.ErrorKind.{error_kind_seen};
ghost use Rattle.zw_fault.specs.Exception.{class_of, message_of};
ghost use Rattle.zw_fault.specs.LoadFault.{IsNamed, load_fault_seen};

use crate::error_kind::ErrorKind;
use std::alloc::{AllocError, Global};
use zw_names::{CPath, Names};
use zw_path::Path;

/// Why the loader does not do what it is asked for.
#[derive(Drop)]
pub enum LoadFault {
    /// The file was loaded, and did not set the constant that it is expected to define.
    NotDefined(Path, CPath),
    /// The base of the file or directory gives this text, which is no name of a constant.
    WrongName(Path, String),
    /// No visible file has the path, or none stands below it.
    NotManaged(Path),
    /// The file is not the one that its constant is loaded from.
    Shadowed(Path),
    /// The configuration does not enable reloading.
    ReloadingDisabled,
    /// The last setup raised, and no reload came after it.
    SetupRequired,
}

fn not_defined(
    alloc: Global,
    path: &Path,
    cpath: &CPath,
    names: &Names,
) -> Result<String, AllocError>
    requires { AreNamed names.now cpath.now }
    ensures { IfOk result (λ text.
        string_bytes text ≡ not_defined_text (texts_of names.now cpath.now) path.now) }
{
    let path = path.text(alloc)?;
    let cpath = cpath.text(alloc, names)?;
    format!(in alloc; "expected file {path} to define constant {cpath}, but didn't")
}

fn wrong_name(alloc: Global, path: &Path, name: &str) -> Result<String, AllocError>
    ensures { IfOk result (λ text.
        string_bytes text ≡ wrong_name_text (record { name = name.now; path = path.now })) }
{
    let path = path.text(alloc)?;
    format!(in alloc; "wrong constant name {name} inferred from {path}")
}

impl LoadFault {
    /// The class of the exception that tells the fault.
    pub(crate) fn kind(&self) -> ErrorKind
        ensures { (names : List Text) → error_kind_seen result ≡ class_of (load_fault_seen names self.now) }
    {
        match self {
            LoadFault::NotDefined(_, _) => ErrorKind::ZeitwerkNameError,
            LoadFault::WrongName(_, _) => ErrorKind::ZeitwerkNameError,
            LoadFault::NotManaged(_) => ErrorKind::ZeitwerkError,
            LoadFault::Shadowed(_) => ErrorKind::ZeitwerkError,
            LoadFault::ReloadingDisabled => ErrorKind::ReloadingDisabledError,
            LoadFault::SetupRequired => ErrorKind::SetupRequired,
        }
    }

    /// The message of that exception.
    pub(crate) fn message(&self, alloc: Global, names: &Names) -> Result<String, AllocError>
        requires { IsNamed names.now self.now }
        ensures { IfOk result (λ text. string_bytes text ≡ message_of (load_fault_seen names.now self.now)) }
    {
        match self {
            LoadFault::NotDefined(path, cpath) => not_defined(alloc, path, cpath, names),
            LoadFault::WrongName(path, name) => wrong_name(alloc, path, name),
            LoadFault::NotManaged(path) => {
                let path = path.text(alloc)?;
                format!(in alloc; "{path} is not managed")
            }
            LoadFault::Shadowed(path) => {
                let path = path.text(alloc)?;
                format!(in alloc; "{path} is shadowed")
            }
            LoadFault::ReloadingDisabled => String::from_str(alloc, "reloading is not enabled"),
            LoadFault::SetupRequired => String::from_str(alloc, "the last setup raised"),
        }
    }
}
