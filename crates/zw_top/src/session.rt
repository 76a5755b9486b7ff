//! The session: what is seen of its tree, and the first path's constants where these answer.
ghost use Rattle.std.specs.Prelude.{◌≡◌, [], ◌∷◌, IfOk, IfSome, codes, string_bytes};
ghost use Rattle.zw_cmd.specs.Seen.{command_seen, reason_seen};
ghost use Rattle.zw_def_session.specs.Commands.{reason_line};
ghost use Rattle.zw_def_thin.specs.Session.{answer, run_answer};
ghost use Rattle.zw_top.specs.Reply.{AnswersTo, AnswersRequest, lines_seen};
ghost use Rattle.zw_top.specs.Script.{request_seen};
ghost use Rattle.zw_view.specs.View.{IsNamed};

use std::alloc::{AllocError, Global};
use zw_cmd::{BadReason, Command, Got};
use zw_thin::Session as Console;
use zw_view::View;

/// A session.
#[derive(Drop)]
pub(crate) struct Session {
    pub(crate) view: View,
    /// The first path's constants, where that answers `run`.
    pub(crate) console: Option<Console>,
}

/// A line alone.
fn alone(alloc: Global, line: String) -> Result<Vec<String>, AllocError>
    ensures { IfOk result (λ lines. lines_seen lines ≡ string_bytes line ∷ []) }
{
    let mut lines = Vec::new(alloc);
    lines.push(line)?;
    Ok(lines)
}

/// What is written where a command is not built so far.
fn not_built(alloc: Global) -> Result<Vec<String>, AllocError>
    ensures { IfOk result (λ lines. lines_seen lines ≡ codes "? not built" ∷ []) }
{
    alone(alloc, String::from_str(alloc, "? not built")?)
}

/// What is written where a line is refused.
fn refusal(alloc: Global, reason: BadReason) -> Result<Vec<String>, AllocError>
    ensures { IfOk result (λ lines. lines_seen lines ≡ reason_line (reason_seen reason) ∷ []) }
{
    alone(alloc, String::from_str(alloc, reason.text())?)
}

impl Session {
    /// The lines that the command `run` writes.
    fn run(&mut self, alloc: Global, text: &str) -> Result<Vec<String>, AllocError>
        ensures told { IfOk result (λ lines. AnswersTo self.old self.new (run_answer text.now) (lines_seen lines)) }
        ensures view { self.new.view ≡ self.old.view }
    {
        let Some(console) = &mut self.console else {
            return not_built(alloc);
        };
        match console.run(alloc, text.as_bytes())? {
            Some(line) => alone(alloc, line),
            None => not_built(alloc),
        }
    }

    /// The lines that a command writes.
    fn answer(&mut self, alloc: Global, command: &Command) -> Result<Vec<String>, AllocError>
        requires { IsNamed self.old.view }
        ensures told { IfOk result (λ lines.
            AnswersTo self.old self.new (answer (command_seen command.now)) (lines_seen lines)) }
        ensures named { IsNamed self.new.view }
    {
        match command {
            Command::Run(text) => self.run(alloc, text),
            Command::Expect(path) => alone(alloc, self.view.expect(alloc, path)?),
            Command::Map => self.view.map(alloc),
            Command::Shadows => self.view.shadows(alloc),
            _ => not_built(alloc),
        }
    }

    /// The lines that what was got of the stream writes; the end of the commands has none.
    pub(crate) fn answer_to(
        &mut self,
        alloc: Global,
        got: &Got,
    ) -> Result<Option<Vec<String>>, AllocError>
        requires { IsNamed self.old.view }
        ensures told { IfOk result (AnswersRequest self.old self.new (request_seen got.now)) }
        ensures named { IsNamed self.new.view }
    {
        match got {
            Got::Command(command) => Ok(Some(self.answer(alloc, command)?)),
            Got::Bad(reason) => Ok(Some(refusal(alloc, *reason)?)),
            Got::End => Ok(None),
        }
    }
}
