//! Faults of the loader, with the exceptions that tell them, and the names of the kinds of errors, written by hand.
ghost use Rattle.std.specs.Prelude.{IfOk};
ghost use Rattle.zw_fault.specs.LoadFault.{IsNamed};

use std::alloc::Global;
use std::test::Fail;
use zw_fault::{ErrorKind, LoadFault, raise_of};
use zw_names::{CPath, Names};
use zw_path::Path;

/// A fault by texts.
enum Row {
    NotDefined(&'static str, &'static str),
    WrongName(&'static str, &'static str),
    NotManaged(&'static str),
    Shadowed(&'static str),
    ReloadingDisabled,
    SetupRequired,
}

/// A fault, and the kind and the message of its exception.
const FAULTS: &[(Row, ErrorKind, &str)] = &[
    (
        Row::NotDefined("m/car.rb", "Car"),
        ErrorKind::ZeitwerkNameError,
        "expected file m/car.rb to define constant Car, but didn't",
    ),
    (
        Row::NotDefined("app/models/admin/user_role.rb", "Admin::UserRole"),
        ErrorKind::ZeitwerkNameError,
        "expected file app/models/admin/user_role.rb to define constant Admin::UserRole, but didn't",
    ),
    (
        Row::NotDefined("é/日本/a🦀.rb", "A日::B1_::Cé"),
        ErrorKind::ZeitwerkNameError,
        "expected file é/日本/a🦀.rb to define constant A日::B1_::Cé, but didn't",
    ),
    (
        Row::NotDefined("m/object.rb", "Object"),
        ErrorKind::ZeitwerkNameError,
        "expected file m/object.rb to define constant Object, but didn't",
    ),
    (
        Row::WrongName("m/admin/1st.rb", "1st"),
        ErrorKind::ZeitwerkNameError,
        "wrong constant name 1st inferred from m/admin/1st.rb",
    ),
    (
        Row::WrongName("m/_", ""),
        ErrorKind::ZeitwerkNameError,
        "wrong constant name  inferred from m/_",
    ),
    (
        Row::WrongName("日/é b\\.rb", "é b\\"),
        ErrorKind::ZeitwerkNameError,
        "wrong constant name é b\\ inferred from 日/é b\\.rb",
    ),
    (
        Row::NotManaged("x"),
        ErrorKind::ZeitwerkError,
        "x is not managed",
    ),
    (
        Row::NotManaged("m/none/a.rb"),
        ErrorKind::ZeitwerkError,
        "m/none/a.rb is not managed",
    ),
    (
        Row::Shadowed("n/a.rb"),
        ErrorKind::ZeitwerkError,
        "n/a.rb is shadowed",
    ),
    (
        Row::Shadowed("𐐨/is shadowed"),
        ErrorKind::ZeitwerkError,
        "𐐨/is shadowed is shadowed",
    ),
    (
        Row::ReloadingDisabled,
        ErrorKind::ReloadingDisabledError,
        "reloading is not enabled",
    ),
    (
        Row::SetupRequired,
        ErrorKind::SetupRequired,
        "the last setup raised",
    ),
];

fn fault(alloc: Global, names: &mut Names, row: &Row) -> Result<LoadFault, Fail>
    ensures { IfOk result (λ fault. IsNamed names.new fault) }
{
    Ok(match row {
        Row::NotDefined(path, cpath) => {
            let cpath = CPath::parse(alloc, names, cpath)?;
            LoadFault::NotDefined(Path::parse(alloc, path)?, cpath)
        }
        Row::WrongName(path, name) => {
            LoadFault::WrongName(Path::parse(alloc, path)?, String::from_str(alloc, name)?)
        }
        Row::NotManaged(path) => LoadFault::NotManaged(Path::parse(alloc, path)?),
        Row::Shadowed(path) => LoadFault::Shadowed(Path::parse(alloc, path)?),
        Row::ReloadingDisabled => LoadFault::ReloadingDisabled,
        Row::SetupRequired => LoadFault::SetupRequired,
    })
}

#[test]
fn faults_are_told(rt: HostRuntime) -> Result<(), Fail> {
    let mut names = Names::new(rt.alloc())?;
    for (row, kind, message) in FAULTS {
        let fault = fault(rt.alloc(), &mut names, row)?;
        let raise = raise_of(rt.alloc(), &fault, &names)?;
        assert_eq!(rt; raise.kind, *kind, "at {message}");
        assert_eq!(rt; raise.message.as_str(), *message);
    }
    Ok(())
}

const KINDS: &[(ErrorKind, &str)] = &[
    (ErrorKind::Exception, "Exception"),
    (ErrorKind::ScriptError, "ScriptError"),
    (ErrorKind::StandardError, "StandardError"),
    (ErrorKind::SyntaxError, "SyntaxError"),
    (ErrorKind::LoadError, "LoadError"),
    (ErrorKind::ArgumentError, "ArgumentError"),
    (ErrorKind::IndexError, "IndexError"),
    (ErrorKind::NameError, "NameError"),
    (ErrorKind::RangeError, "RangeError"),
    (ErrorKind::RuntimeError, "RuntimeError"),
    (ErrorKind::TypeError, "TypeError"),
    (ErrorKind::ZeroDivisionError, "ZeroDivisionError"),
    (ErrorKind::NoMethodError, "NoMethodError"),
    (ErrorKind::FrozenError, "FrozenError"),
    (ErrorKind::ZeitwerkError, "Zeitwerk::Error"),
    (
        ErrorKind::ReloadingDisabledError,
        "Zeitwerk::ReloadingDisabledError",
    ),
    (ErrorKind::SetupRequired, "Zeitwerk::SetupRequired"),
    (ErrorKind::ZeitwerkNameError, "Zeitwerk::NameError"),
];

#[test]
fn kinds_have_the_names_of_their_classes(rt: HostRuntime) -> Result<(), Fail> {
    for (kind, name) in KINDS {
        assert_eq!(rt; kind.name(), *name);
    }
    Ok(())
}
