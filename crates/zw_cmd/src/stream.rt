//! The commands of a stream, one after another.
ghost use Rattle.std.specs.Prelude.{◌≡◌, ◌≤◌, true, None, Err, List, length, IfSome, IfErr, IfOk, OnOk};
ghost use Rattle.std.specs.Result.{result_err};
ghost use Rattle.zw_def.specs.Text.{Text};
ghost use Rattle.zw_def.specs.Line.{lines_of};
ghost use Rattle.zw_def_session.specs.Commands as defined;
ghost use Rattle.zw_def_session.specs.Commands.{Stream};
ghost use Rattle.zw_io.specs.State.{bytes_left};
ghost use Rattle.zw_io.specs.Drawn.{DrawsFrom, IsSound};
ghost use Rattle.zw_io.specs.LineAnswers.{Counts};
ghost use Rattle.zw_io.specs.NextLines.{with_feeds};
ghost use Rattle.zw_cmd.specs.Seen.{reading_of, GotTells};
ghost use Rattle.zw_cmd.specs.Streams.{next_reading};
ghost use Rattle.zw_cmd.specs.Request.{reading_for, RequestTells};
ghost use Rattle.zw_cmd.specs.Answer.{step_of, StepTells, Answers, Meets, Spends, SpendsStep};

use crate::command::{BadReason, Command, Got};
use crate::request::{Request, long_request, request_of};
use crate::script::{has_long_line, script};
use std::alloc::{AllocError, Global};
use zw_io::{LineEnd, Lines, LinesFault, Source};
use zw_path::Path;

// What `put` gives, where so many lines were taken of those that it asks for.
fn put_of(path: Path, asked: u64, taken: u64, bytes: Vec<u8>) -> Got
    ensures reads { (ls : List Text) (s : Stream) → length ls ≡ taken → bytes.items ≡ with_feeds ls →
        reading_of result s ≡ defined.put_of asked path (defined.taken ls s) }
    ensures tells { GotTells result }
{
    if taken == asked {
        Got::Command(Command::Put(path, bytes))
    } else {
        Got::Bad(BadReason::InputEnded)
    }
}

// What `runs` gives, where so many lines were taken of those that it asks for.
fn run_of(alloc: Global, asked: u64, taken: u64, bytes: &[u8]) -> Result<Got, AllocError>
    ensures reads { IfOk result (λ got. (s : Stream) → length (lines_of bytes.now) ≡ taken →
        reading_of got s ≡ defined.runs_of asked (defined.taken (lines_of bytes.now) s)) }
    ensures tells { IfOk result GotTells }
{
    if has_long_line(bytes) {
        return Ok(Got::Bad(BadReason::LineTooLong));
    }
    match script(alloc, bytes)? {
        None => Ok(Got::Bad(BadReason::NotUtf8)),
        Some(text) if taken == asked => Ok(Got::Command(Command::Run(text))),
        Some(_) => Ok(Got::Bad(BadReason::InputEnded)),
    }
}

// Takes what a request asks for. It gives nothing where the line is skipped.
fn fulfil<S: Source>(
    alloc: Global,
    lines: &mut Lines<S>,
    request: Request,
) -> Result<Option<Got>, LinesFault>
    requires fresh { lines.old.refused ≡ None }
    requires tells { RequestTells request }
    ensures same_source { lines.new.source.ghost_name ≡ lines.old.source.ghost_name }
    ensures answer { IfSome (bytes_left S.left lines.old) (λ bytes. Answers step_of (reading_for request)
        result bytes lines.old.room (bytes_left S.left lines.new) lines.new.room) }
    ensures met { IfSome (bytes_left S.left lines.old) (λ bytes. Meets step_of (reading_for request)
        result bytes (bytes_left S.left lines.new) lines.old.is_ended lines.new.is_ended) }
    ensures drained { IfErr result (λ fault.
        fault ≡ LinesFault.ReadFault → bytes_left S.left lines.new ≡ S.left lines.new.source.now) }
    ensures cause { Counts result (S.faults lines.old.source.now) (S.faults lines.new.source.now) }
    ensures room { IfOk result (λ _. lines.new.room ≤ lines.old.room) }
    ensures fresh { OnOk result (lines.new.refused ≡ None) }
    ensures tells { IfOk result StepTells }
    ensures draws { DrawsFrom S.left lines.old lines.new }
    ensures sound { IsSound S.left lines.old → IsSound S.left lines.new }
    ensures over { lines.old.is_ended ≡ true → lines.new.source.now ≡ lines.old.source.now }
    ensures stays { OnOk result (lines.old.is_ended ≡ true → lines.new.is_ended ≡ true) }
{
    match request {
        Request::Nothing => Ok(None),
        Request::Answer(got) => Ok(Some(got)),
        Request::Put(path, asked) => {
            let mut bytes = Vec::new(alloc);
            let taken = lines.next_lines(asked, &mut bytes)?;
            Ok(Some(put_of(path, asked, taken, bytes)))
        }
        Request::Runs(asked) => {
            let mut bytes = Vec::new(alloc);
            let taken = lines.next_lines(asked, &mut bytes)?;
            Ok(Some(run_of(alloc, asked, taken, &bytes)?))
        }
    }
}

// Reads one line, and the lines that belong to it.
fn read_line<S: Source>(
    alloc: Global,
    lines: &mut Lines<S>,
    line: &mut Vec<u8>,
) -> Result<Option<Got>, LinesFault>
    requires fresh { lines.old.refused ≡ None }
    ensures same_source { lines.new.source.ghost_name ≡ lines.old.source.ghost_name }
    ensures answer { IfSome (bytes_left S.left lines.old) (λ bytes. Answers step_of defined.next_command
        result bytes lines.old.room (bytes_left S.left lines.new) lines.new.room) }
    ensures met { IfSome (bytes_left S.left lines.old) (λ bytes. Meets step_of defined.next_command
        result bytes (bytes_left S.left lines.new) lines.old.is_ended lines.new.is_ended) }
    ensures drained { IfErr result (λ fault.
        fault ≡ LinesFault.ReadFault → bytes_left S.left lines.new ≡ S.left lines.new.source.now) }
    ensures cause { Counts result (S.faults lines.old.source.now) (S.faults lines.new.source.now) }
    ensures room { IfOk result (λ step. SpendsStep step lines.old.room lines.new.room) }
    ensures fresh { OnOk result (lines.new.refused ≡ None) }
    ensures tells { IfOk result StepTells }
    ensures draws { DrawsFrom S.left lines.old lines.new }
    ensures sound { IsSound S.left lines.old → IsSound S.left lines.new }
    ensures over { lines.old.is_ended ≡ true → lines.new.source.now ≡ lines.old.source.now }
    ensures stays { OnOk result (lines.old.is_ended ≡ true → lines.new.is_ended ≡ true) }
{
    match lines.next_line(line)? {
        LineEnd::End => Ok(Some(Got::End)),
        LineEnd::TooLong => fulfil(alloc, lines, long_request(line)),
        LineEnd::Line => {
            let request = request_of(alloc, line)?;
            fulfil(alloc, lines, request)
        }
    }
}

// Reads lines up to a command, a refusal or the end.
fn read_command<S: Source>(alloc: Global, lines: &mut Lines<S>) -> Result<Got, LinesFault>
    requires fresh { lines.old.refused ≡ None }
    ensures same_source { lines.new.source.ghost_name ≡ lines.old.source.ghost_name }
    ensures answer { IfSome (bytes_left S.left lines.old) (λ bytes. Answers reading_of next_reading
        result bytes lines.old.room (bytes_left S.left lines.new) lines.new.room) }
    ensures met { IfSome (bytes_left S.left lines.old) (λ bytes. Meets reading_of next_reading
        result bytes (bytes_left S.left lines.new) lines.old.is_ended lines.new.is_ended) }
    ensures drained { IfErr result (λ fault.
        fault ≡ LinesFault.ReadFault → bytes_left S.left lines.new ≡ S.left lines.new.source.now) }
    ensures cause { Counts result (S.faults lines.old.source.now) (S.faults lines.new.source.now) }
    ensures room { IfOk result (λ got. Spends got lines.old.room lines.new.room) }
    ensures fresh { OnOk result (lines.new.refused ≡ None) }
    ensures tells { IfOk result GotTells }
    ensures draws { DrawsFrom S.left lines.old lines.new }
    ensures sound { IsSound S.left lines.old → IsSound S.left lines.new }
    ensures over { lines.old.is_ended ≡ true → lines.new.source.now ≡ lines.old.source.now }
    ensures stays { OnOk result (lines.old.is_ended ≡ true → lines.new.is_ended ≡ true) }
{
    let mut line = Vec::new(alloc);
    'lines: loop {
        match read_line(alloc, lines, &mut line)? {
            None => {}
            Some(got) => return Ok(got),
        }
    }
}

/// The next command of the stream, what is wrong with it, or the end. Blank lines and comments are passed over. A
/// refusal of the lines is answered again by every later call. No clause says that the source is not asked for more
/// while the command's lines stand whole in the bytes that are held.
pub fn next_command<S: Source>(alloc: Global, lines: &mut Lines<S>) -> Result<Got, LinesFault>
    ensures same_source { lines.new.source.ghost_name ≡ lines.old.source.ghost_name }
    // What is read is what is defined.
    ensures answer { lines.old.refused ≡ None → IfSome (bytes_left S.left lines.old) (λ bytes.
        Answers reading_of next_reading result bytes lines.old.room (bytes_left S.left lines.new) lines.new.room) }
    // Until the end of input is met, what is read stands whole in the bytes taken.
    ensures met { lines.old.refused ≡ None → IfSome (bytes_left S.left lines.old) (λ bytes.
        Meets reading_of next_reading result bytes (bytes_left S.left lines.new)
        lines.old.is_ended lines.new.is_ended) }
    // The text of a constant path tells one.
    ensures tells { IfOk result GotTells }
    // After a failed read no byte is held.
    ensures drained { lines.old.refused ≡ None → IfErr result (λ fault.
        fault ≡ LinesFault.ReadFault → bytes_left S.left lines.new ≡ S.left lines.new.source.now) }
    ensures cause { lines.old.refused ≡ None →
        Counts result (S.faults lines.old.source.now) (S.faults lines.new.source.now) }
    ensures again { IfSome lines.old.refused (λ fault.
        (result ≡ Err fault) × (lines.new.source.now ≡ lines.old.source.now)) }
    // Whatever the answer, the source has left what it had but for what was taken.
    ensures draws { DrawsFrom S.left lines.old lines.new }
    ensures sound { IsSound S.left lines.old → IsSound S.left lines.new }
    // Once the end of input is met, the source is asked no more.
    ensures over { lines.old.is_ended ≡ true → lines.new.source.now ≡ lines.old.source.now }
    ensures stays { OnOk result (lines.old.is_ended ≡ true → lines.new.is_ended ≡ true) }
    // Each command spends room, so that a loop over the commands ends.
    ensures room { IfOk result (λ got. Spends got lines.old.room lines.new.room) }
    ensures refused { lines.new.refused ≡ result_err result }
{
    if let Some(fault) = lines.refused {
        return Err(fault);
    }
    match read_command(alloc, lines) {
        Ok(got) => Ok(got),
        Err(fault) => {
            lines.refuse(fault);
            Err(fault)
        }
    }
}
