//! The command stream.
ghost use Rattle.std.specs.Prelude.{◌≡◌, IfSome};
ghost use Rattle.zw_def_thin.specs.Session.{Session as Defined};
ghost use Rattle.zw_top.specs.Reply.{RepliesTo, CountsReply, EndsFor, CutsShort, CountsCut, Serves, CountsServed};
ghost use Rattle.zw_top.specs.Script.{request_seen};
ghost use Rattle.zw_top.specs.Session.{SessionStands};
ghost use Rattle.zw_top.specs.Stream.{TakesStream};
ghost use Rattle.zw_view.specs.View.{IsNamed};

use crate::Status;
use crate::line::{put_line, put_lines};
use crate::session::Session;
use std::alloc::Global;
use zw_cmd::{Got, next_command};
use zw_io::{Lines, LinesFault, Out, Sink, Source};

// Writes the answer to what was got. The status of an `Err` ends the session.
fn reply<K: Sink>(
    alloc: Global,
    session: &mut Session,
    out: &mut Out<K>,
    got: Got,
) -> Result<(), Status>
    requires { IsNamed session.old.view }
    ensures same_sink { out.new.sink.ghost_name ≡ out.old.sink.ghost_name }
    ensures replies { RepliesTo result session.old session.new (request_seen got)
        (K.taken out.old.sink.now) (K.taken out.new.sink.now) }
    ensures counts { CountsReply result (K.faults out.old.sink.now) (K.faults out.new.sink.now) }
    ensures ends { EndsFor result (request_seen got) }
    ensures named { IsNamed session.new.view }
{
    match session.answer_to(alloc, &got) {
        Err(_) => Err(Status::Memory),
        Ok(None) => Err(Status::Done),
        Ok(Some(lines)) => put_lines(out, lines),
    }
}

// The end of a session that the stream cuts short.
fn cut_short<K: Sink>(alloc: Global, out: &mut Out<K>, fault: LinesFault) -> Status
    ensures same_sink { out.new.sink.ghost_name ≡ out.old.sink.ghost_name }
    ensures cuts { CutsShort result fault (K.taken out.old.sink.now) (K.taken out.new.sink.now) }
    ensures counts { CountsCut result (K.faults out.old.sink.now) (K.faults out.new.sink.now) }
{
    match fault {
        LinesFault::ReadFault => Status::ReadFault,
        LinesFault::Memory => Status::Memory,
        LinesFault::TooMuch => match String::from_str(alloc, "limit: stream") {
            Err(_) => Status::Memory,
            Ok(line) => match put_line(out, line) {
                Ok(()) => Status::Limit,
                Err(status) => status,
            },
        },
    }
}

/// Answers the commands of the stream.
pub(crate) fn serve<S: Source, K: Sink>(
    alloc: Global,
    session: Session,
    source: &mut S,
    out: &mut Out<K>,
) -> Status
    requires { IsNamed session.view }
    ensures same_sink { out.new.sink.ghost_name ≡ out.old.sink.ghost_name }
    ensures serves { (s : Defined) → SessionStands s session → IfSome (S.left source.old) (λ bytes.
        Serves result s bytes (S.left source.new) (K.taken out.old.sink.now) (K.taken out.new.sink.now)) }
    ensures takes { IfSome (S.left source.old) (λ bytes. TakesStream result bytes (S.left source.new)) }
    ensures counts { CountsServed result (S.faults source.old) (S.faults source.new)
        (K.faults out.old.sink.now) (K.faults out.new.sink.now) }
{
    let mut current = session;
    let mut lines = Lines::new(source);
    'stream: loop {
        match next_command(alloc, &mut lines) {
            Err(fault) => return cut_short(alloc, out, fault),
            Ok(got) => match reply(alloc, &mut current, out, got) {
                Ok(()) => {}
                Err(status) => return status,
            },
        }
    }
}
