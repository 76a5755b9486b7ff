//! How calls are written.
ghost use Rattle.std.specs.Prelude.{◌≡◌};
ghost use Rattle.zw_def_world.specs.Call.{finds_private, is_bare};
ghost use Rattle.zw_ops.specs.Written.{written_seen};

/// How the receiver of a call is written.
#[derive(Clone, Copy, Debug, PartialEq, Eq)]
pub enum Written {
    /// Not at all.
    Unwritten,
    /// As `self`.
    AsSelf,
    /// As any other node.
    Other,
}

impl Written {
    /// Whether private methods are found (ISO/IEC 30170, 13.3.5.3; Ruby finds them by `self`, too).
    pub fn finds_private(&self) -> bool
        ensures { result ≡ finds_private (written_seen self.now) }
    {
        match self {
            Written::Unwritten => true,
            Written::AsSelf => true,
            Written::Other => false,
        }
    }

    /// Whether no receiver is written.
    pub fn is_bare(&self) -> bool
        ensures { result ≡ is_bare (written_seen self.now) }
    {
        match self {
            Written::Unwritten => true,
            Written::AsSelf => false,
            Written::Other => false,
        }
    }
}

/// What a call is taken for where there is no such method.
#[derive(Clone, Copy, Debug, PartialEq, Eq)]
pub enum Absent {
    /// A method.
    Method,
    /// A variable or a method: a name alone.
    Variable,
}
