//! Classes of exceptions.
ghost use Rattle.std.specs.Prelude.{◌≡◌, Some};
ghost use Rattle.zw_fault.specs.ErrorKind.{error_kind_seen, core_name};

/// A core class of exceptions: `Exception`, or one below it (ISO/IEC 30170, 15.2; the last four are those of Zeitwerk).
#[derive(Clone, Copy, Debug, PartialEq, Eq)]
pub enum ErrorKind {
    Exception,
    ScriptError,
    StandardError,
    SyntaxError,
    LoadError,
    ArgumentError,
    IndexError,
    NameError,
    RangeError,
    RuntimeError,
    TypeError,
    ZeroDivisionError,
    NoMethodError,
    FrozenError,
    ZeitwerkError,
    ReloadingDisabledError,
    SetupRequired,
    ZeitwerkNameError,
}

impl ErrorKind {
    /// The path of the class.
    pub fn name(&self) -> &'static str
        ensures { core_name (error_kind_seen self.now) ≡ Some result.now }
    {
        match self {
            ErrorKind::Exception => "Exception",
            ErrorKind::ScriptError => "ScriptError",
            ErrorKind::StandardError => "StandardError",
            ErrorKind::SyntaxError => "SyntaxError",
            ErrorKind::LoadError => "LoadError",
            ErrorKind::ArgumentError => "ArgumentError",
            ErrorKind::IndexError => "IndexError",
            ErrorKind::NameError => "NameError",
            ErrorKind::RangeError => "RangeError",
            ErrorKind::RuntimeError => "RuntimeError",
            ErrorKind::TypeError => "TypeError",
            ErrorKind::ZeroDivisionError => "ZeroDivisionError",
            ErrorKind::NoMethodError => "NoMethodError",
            ErrorKind::FrozenError => "FrozenError",
            ErrorKind::ZeitwerkError => "Zeitwerk::Error",
            ErrorKind::ReloadingDisabledError => "Zeitwerk::ReloadingDisabledError",
            ErrorKind::SetupRequired => "Zeitwerk::SetupRequired",
            ErrorKind::ZeitwerkNameError => "Zeitwerk::NameError",
        }
    }
}
