//! The call that does all.
ghost use Rattle.std.specs.Prelude.{◌≡◌, ◌≢◌, IfSome, map, string_bytes};
ghost use Rattle.zw_def_thin.specs.Refusal.{Refusal as refusal, bad_words, ending_of_refusal};
ghost use Rattle.zw_args.specs.Settings.{settings_seen};
ghost use Rattle.zw_top.specs.Session.{settings_at, started, started_with};
ghost use Rattle.zw_top.specs.Refusal.{refusal_seen};
ghost use Rattle.zw_top.specs.Reply.{CountsCut};
ghost use Rattle.zw_top.specs.Stream.{Takes};
ghost use Rattle.zw_top.specs.Run.{status_of_ending, Refuses, RefusesFor, KeepsToWords, KeepsToStart, Writes, Causes};

use crate::Status;
use crate::line::put_line;
use crate::refusal::{Refusal, StartFault, Stop, line_of};
use crate::start::start;
use crate::stream::serve;
use crate::words::usage_line;
use std::alloc::Global;
use zw_args::words::settings;
use zw_args::{Settings, Usage};
use zw_base::Fault;
use zw_io::{Folder, Out, Sink, Source};

fn status_of(refusal: &Refusal) -> Status
    ensures { result ≡ status_of_ending (ending_of_refusal (refusal_seen refusal.now)) }
{
    match refusal {
        Refusal::NoConfiguration => Status::Config,
        Refusal::BadConfiguration(_) => Status::Config,
        Refusal::OtherConfiguration => Status::Config,
        Refusal::LongListing => Status::Limit,
        Refusal::ManyFiles => Status::Limit,
        Refusal::LargeFile(_) => Status::Limit,
        Refusal::LargeTree => Status::Limit,
        Refusal::BadNamespace(_) => Status::Config,
    }
}

// Writes why a session is refused.
fn put_refusal<K: Sink>(alloc: Global, out: &mut Out<K>, refusal: &Refusal) -> Status
    ensures same_sink { out.new.sink.ghost_name ≡ out.old.sink.ghost_name }
    ensures refuses { Refuses result (refusal_seen refusal.now) (K.taken out.old.sink.now) (K.taken out.new.sink.now) }
    ensures counts { CountsCut result (K.faults out.old.sink.now) (K.faults out.new.sink.now) }
{
    let Ok(line) = line_of(alloc, refusal) else {
        return Status::Memory;
    };
    match put_line(out, line) {
        Ok(()) => status_of(refusal),
        Err(status) => status,
    }
}

// Writes that the words are refused.
fn put_usage<K: Sink>(alloc: Global, out: &mut Out<K>) -> Status
    ensures same_sink { out.new.sink.ghost_name ≡ out.old.sink.ghost_name }
    ensures refuses { Refuses result bad_words (K.taken out.old.sink.now) (K.taken out.new.sink.now) }
    ensures counts { CountsCut result (K.faults out.old.sink.now) (K.faults out.new.sink.now) }
{
    let Ok(line) = usage_line(alloc) else {
        return Status::Memory;
    };
    match put_line(out, line) {
        Ok(()) => Status::Usage,
        Err(status) => status,
    }
}

// The end of a session that does not start.
fn refuse<K: Sink>(alloc: Global, out: &mut Out<K>, fault: StartFault) -> Status
    ensures same_sink { out.new.sink.ghost_name ≡ out.old.sink.ghost_name }
    ensures refuses { RefusesFor result fault (K.taken out.old.sink.now) (K.taken out.new.sink.now) }
    ensures counts { CountsCut result (K.faults out.old.sink.now) (K.faults out.new.sink.now) }
{
    match fault {
        Fault::Memory => Status::Memory,
        Fault::Refused(Stop::FolderFault) => Status::FolderFault,
        Fault::Refused(Stop::Refusal(refusal)) => put_refusal(alloc, out, &refusal),
    }
}

// A session with these settings.
fn run_with<F: Folder, S: Source, K: Sink>(
    alloc: Global,
    settings: &Settings,
    folder: &mut F,
    source: &mut S,
    out: &mut Out<K>,
) -> Status
    ensures same_sink { out.new.sink.ghost_name ≡ out.old.sink.ghost_name }
    ensures accepts { result ≢ Status.Usage }
    ensures refuses { IfSome (F.listing folder.old) (λ l.
        KeepsToStart result (started_with (settings_seen settings.now) l)
        (K.taken out.old.sink.now) (K.taken out.new.sink.now)) }
    ensures writes { IfSome (F.listing folder.old) (λ l. IfSome (S.left source.old) (λ bytes.
        Writes result (started_with (settings_seen settings.now) l) bytes (S.left source.new)
        (K.taken out.old.sink.now) (K.taken out.new.sink.now))) }
    ensures takes { IfSome (S.left source.old) (λ bytes. Takes result bytes (S.left source.new)) }
    ensures causes { Causes result (F.faults folder.old) (F.faults folder.new)
        (S.faults source.old) (S.faults source.new) (K.faults out.old.sink.now) (K.faults out.new.sink.now) }
{
    match start(alloc, folder, settings) {
        Ok(session) => serve(alloc, session, source, out),
        Err(fault) => refuse(alloc, out, fault),
    }
}

/// Carries out a whole session: its words (without the program's name), the folder, and the command stream. What is
/// printed goes to the sink.
pub fn run<F: Folder, S: Source, K: Sink>(
    alloc: Global,
    words: &[String],
    folder: &mut F,
    source: &mut S,
    sink: &mut K,
) -> Status
    // Words that are refused are told by the usage line and its status, whatever folder and stream hold; no others are.
    ensures usage { KeepsToWords result (settings_at (map string_bytes words.now))
        (K.taken sink.old) (K.taken sink.new) }
    // Where the folder tells its files, a start that is refused is told by its line and status, whatever the stream
    // holds.
    ensures refuses { IfSome (F.listing folder.old) (λ l.
        KeepsToStart result (started (map string_bytes words.now) l) (K.taken sink.old) (K.taken sink.new)) }
    // Where the folder tells its files and the source its bytes, what the sink takes is the session's output, or a
    // front of it where the sink failed or memory ran out; after a failed read it is what the bytes that were taken
    // give.
    ensures writes { IfSome (F.listing folder.old) (λ l. IfSome (S.left source.old) (λ bytes.
        Writes result (started (map string_bytes words.now) l) bytes (S.left source.new)
        (K.taken sink.old) (K.taken sink.new))) }
    // The stream is what was taken, at most one byte past the limit, and what is left: all of it where no command was
    // asked for. Where the session is done, nothing is left, or a front of the stream ends it whatever follows.
    ensures takes { IfSome (S.left source.old) (λ bytes. Takes result bytes (S.left source.new)) }
    // A fault is told only where that object's count rose, and then no other's; else no count rose.
    ensures causes { Causes result (F.faults folder.old) (F.faults folder.new)
        (S.faults source.old) (S.faults source.new) (K.faults sink.old) (K.faults sink.new) }
{
    let mut out = Out::new(sink);
    match settings(alloc, words) {
        Ok(settings) => run_with(alloc, &settings, folder, source, &mut out),
        Err(Fault::Refused(Usage)) => put_usage(alloc, &mut out),
        Err(Fault::Memory) => Status::Memory,
    }
}
