//! Commands, and what is wrong with a line that is none.
ghost use Rattle.std.specs.Prelude.{◌≡◌};
ghost use Rattle.zw_def_session.specs.Commands.{reason_line};
ghost use Rattle.zw_cmd.specs.Seen.{reason_seen};

use std::fmt;
use zw_path::Path;

/// A command, as far as it is read without the session.
#[derive(Debug, Drop)]
pub enum Command {
    /// Stages a file with these bytes: the lines that follow the command, each with an LF.
    Put(Path, Vec<u8>),
    /// Stages the removal of a file.
    Del(Path),
    /// Evaluates a text: what follows the word, or the lines that follow the command with an LF between them.
    Run(String),
    /// Mounts the staged tree.
    Reload,
    /// Loads all that is loaded eagerly.
    Eager,
    /// Loads what is loaded eagerly below a directory.
    EagerDir(Path),
    /// Loads what is loaded eagerly of a namespace, which the text of a constant path tells.
    EagerNs(String),
    /// Loads a file.
    Load(Path),
    /// Asks for the constant path that a file is expected to define.
    Expect(Path),
    /// Asks for the map.
    Map,
    /// Asks for the files that no key loads.
    Shadows,
    /// Asks whether the tree is calm.
    Check,
}

/// Why a command is refused as it stands. The first that holds is told.
#[derive(Clone, Copy, Debug, PartialEq, Eq)]
pub enum BadReason {
    /// Its line, or a line of `runs`, has more than 1,048,576 bytes without its line end.
    LineTooLong,
    /// Its line, or a line of `runs`, is not UTF-8.
    NotUtf8,
    /// Its first word is no command.
    Unknown,
    /// What follows the word has not the form that the command takes.
    BadArgument,
    /// The stream ended before the lines that belong to it.
    InputEnded,
}

impl BadReason {
    /// The line that the refusal prints.
    pub fn text(self) -> &'static str
        ensures { result.now ≡ reason_line (reason_seen self) }
    {
        match self {
            BadReason::LineTooLong => "? line too long",
            BadReason::NotUtf8 => "? not UTF-8",
            BadReason::Unknown => "? unknown command",
            BadReason::BadArgument => "? bad argument",
            BadReason::InputEnded => "? input ended",
        }
    }
}

impl fmt::Display for BadReason {
    fn fmt<W: fmt::Write>(&self, f: &mut fmt::Formatter<W>) -> fmt::Result {
        f.write_str(self.text())
    }
}

/// What is read of the stream.
#[derive(Debug, Drop)]
pub enum Got {
    /// A command.
    Command(Command),
    /// A command that is refused. The lines that belong to it are taken, but for those of a bad argument.
    Bad(BadReason),
    /// The command `end`, or the end of the stream.
    End,
}
