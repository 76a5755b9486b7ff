//! What a command's line asks for.
ghost use Rattle.std.specs.Prelude.{◌≡◌, IfOk, codes};
ghost use Rattle.zw_def.specs.Path.{path_of};
ghost use Rattle.zw_def_session.specs.Commands as spec;
ghost use Rattle.zw_def_session.specs.Commands.{Stream};
ghost use Rattle.zw_cmd.specs.Request.{reading_for, text_read, short_read, long_read, line_read, asked_with, asked_alone, IsNamespace, RequestTells};

use crate::command::{BadReason, Command, Got};
use crate::line::{first_word, is_blank, is_comment, last_word, without_return};
use crate::number::number_in;
use std::alloc::{AllocError, Global};
use zw_base::Fault;
use zw_names::is_cpath;
use zw_path::Path;

/// How many lines `put` may take.
const MOST_PUT: u64 = 1_000_000;

/// How many lines `runs` may take.
const MOST_RUNS: u64 = 10_000;

/// What a line asks for, before the lines that belong to it are taken.
#[derive(Drop)]
pub(crate) enum Request {
    /// Nothing: the line is skipped.
    Nothing,
    /// A file with the next lines, so many.
    Put(Path, u64),
    /// The next lines, so many, as one text.
    Runs(u64),
    /// What stands whole in the line.
    Answer(Got),
}

fn bad(reason: BadReason) -> Request
    ensures { result ≡ Request.Answer (Got.Bad reason) }
{
    Request::Answer(Got::Bad(reason))
}

// A command whose argument has its form.
fn with_argument(command: Option<Command>) -> Request
    ensures { result ≡ asked_with command }
{
    match command {
        None => bad(BadReason::BadArgument),
        Some(command) => Request::Answer(Got::Command(command)),
    }
}

// What has no argument.
fn alone(rest: &str, got: Got) -> Request
    ensures { result ≡ asked_alone got rest.now }
{
    if rest.is_empty() {
        Request::Answer(got)
    } else {
        bad(BadReason::BadArgument)
    }
}

// The path that a text tells.
fn path_in(alloc: Global, text: &str) -> Result<Option<Path>, AllocError>
    ensures { IfOk result (λ path. path ≡ path_of text.now) }
{
    match Path::parse(alloc, text) {
        Ok(path) => Ok(Some(path)),
        Err(Fault::Refused(_)) => Ok(None),
        Err(Fault::Memory) => Err(AllocError),
    }
}

// The text of a constant path.
fn constant_path_in(alloc: Global, text: &str) -> Result<Option<Command>, AllocError>
    ensures { IfOk result (λ command. IsNamespace command text.now) }
{
    if !is_cpath(text) {
        return Ok(None);
    }
    Ok(Some(Command::EagerNs(String::from_str(alloc, text)?)))
}

// `PATH N`, where the last space stands between the two.
fn put(alloc: Global, rest: &str) -> Result<Request, AllocError>
    ensures reads { IfOk result (λ request. (s : Stream) → reading_for request s ≡ spec.put_rest rest.now s) }
    ensures tells { IfOk result RequestTells }
{
    let (front, word) = last_word(rest);
    let path = path_in(alloc, front)?;
    match (path, number_in(0, MOST_PUT, word)) {
        (Some(path), Some(count)) => Ok(Request::Put(path, count)),
        _ => Ok(bad(BadReason::BadArgument)),
    }
}

fn runs(rest: &str) -> Request
    ensures reads { (s : Stream) → reading_for result s ≡ spec.runs_lines s (spec.number_in 1 spec.max_runs rest.now) }
    ensures tells { RequestTells result }
{
    match number_in(1, MOST_RUNS, rest) {
        Some(count) => Request::Runs(count),
        None => bad(BadReason::BadArgument),
    }
}

// What a command asks for that takes no more lines.
fn simple(alloc: Global, word: &str, rest: &str) -> Result<Request, AllocError>
    requires lines { (word.now ≡ codes "put" → ⊥) × (word.now ≡ codes "runs" → ⊥) }
    ensures reads { IfOk result (λ request. (s : Stream) → reading_for request s ≡ spec.command_of word.now rest.now s) }
    ensures tells { IfOk result RequestTells }
{
    match word {
        "del" => Ok(with_argument(path_in(alloc, rest)?.map(|path| Command::Del(path)))),
        "run" => Ok(Request::Answer(Got::Command(Command::Run(String::from_str(alloc, rest)?)))),
        "reload" => Ok(alone(rest, Got::Command(Command::Reload))),
        "eager" => Ok(alone(rest, Got::Command(Command::Eager))),
        "eager_dir" => Ok(with_argument(path_in(alloc, rest)?.map(|path| Command::EagerDir(path)))),
        "eager_ns" => Ok(with_argument(constant_path_in(alloc, rest)?)),
        "load" => Ok(with_argument(path_in(alloc, rest)?.map(|path| Command::Load(path)))),
        "expect" => Ok(with_argument(path_in(alloc, rest)?.map(|path| Command::Expect(path)))),
        "map" => Ok(alone(rest, Got::Command(Command::Map))),
        "shadows" => Ok(alone(rest, Got::Command(Command::Shadows))),
        "check" => Ok(alone(rest, Got::Command(Command::Check))),
        "end" => Ok(alone(rest, Got::End)),
        _ => Ok(bad(BadReason::Unknown)),
    }
}

// What a command asks for, by its first word.
fn command_for(alloc: Global, word: &str, rest: &str) -> Result<Request, AllocError>
    ensures reads { IfOk result (λ request. (s : Stream) → reading_for request s ≡ spec.command_of word.now rest.now s) }
    ensures tells { IfOk result RequestTells }
{
    match word {
        "put" => put(alloc, rest),
        "runs" => Ok(runs(rest)),
        _ => simple(alloc, word, rest),
    }
}

// What a line in UTF-8 asks for, without its CR.
fn text_asks(alloc: Global, text: &str) -> Result<Request, AllocError>
    ensures reads { IfOk result (λ request. (s : Stream) → reading_for request s ≡ text_read text.now s) }
    ensures tells { IfOk result RequestTells }
{
    if is_blank(text) {
        return Ok(Request::Nothing);
    }
    let (word, rest) = first_word(text);
    command_for(alloc, word, rest)
}

// What a line asks for that is whole here, and no comment.
fn line_asks(alloc: Global, line: &[u8]) -> Result<Request, AllocError>
    ensures reads { IfOk result (λ request. (s : Stream) → reading_for request s ≡ line_read line.now s) }
    ensures tells { IfOk result RequestTells }
{
    match std::str::from_utf8(line) {
        Err(_) => Ok(bad(BadReason::NotUtf8)),
        Ok(text) => text_asks(alloc, without_return(text)),
    }
}

/// What a line asks for that is whole here.
pub(crate) fn request_of(alloc: Global, line: &[u8]) -> Result<Request, AllocError>
    ensures reads { IfOk result (λ request. (s : Stream) → reading_for request s ≡ short_read line.now s) }
    ensures tells { IfOk result RequestTells }
{
    if is_comment(line) {
        return Ok(Request::Nothing);
    }
    line_asks(alloc, line)
}

/// What a line asks for that is too long, and of which a front is here.
pub(crate) fn long_request(front: &[u8]) -> Request
    ensures reads { (s : Stream) → reading_for result s ≡ long_read front.now s }
    ensures tells { RequestTells result }
{
    if is_comment(front) {
        return Request::Nothing;
    }
    bad(BadReason::LineTooLong)
}
