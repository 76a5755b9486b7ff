//! Lines that are printed.
ghost use Rattle.std.specs.Prelude.{◌≡◌, string_bytes};
ghost use Rattle.zw_top.specs.Reply.{PutsLine, PutsLines, CountsPut, lines_seen};

use crate::Status;
use zw_io::{Out, Sink};

/// Writes a line with its LF, whole.
pub(crate) fn put_line<K: Sink>(out: &mut Out<K>, line: String) -> Result<(), Status>
    ensures same_sink { out.new.sink.ghost_name ≡ out.old.sink.ghost_name }
    ensures puts { PutsLine result (string_bytes line) (K.taken out.old.sink.now) (K.taken out.new.sink.now) }
    ensures counts { CountsPut result (K.faults out.old.sink.now) (K.faults out.new.sink.now) }
{
    let mut line = line;
    if line.push('\n').is_err() {
        return Err(Status::Memory);
    }
    match out.put(line.as_bytes()) {
        Ok(()) => Ok(()),
        Err(_) => Err(Status::WriteFault),
    }
}

/// Writes the lines, one after another.
pub(crate) fn put_lines<K: Sink>(out: &mut Out<K>, lines: Vec<String>) -> Result<(), Status>
    ensures same_sink { out.new.sink.ghost_name ≡ out.old.sink.ghost_name }
    ensures puts { PutsLines result (lines_seen lines) (K.taken out.old.sink.now) (K.taken out.new.sink.now) }
    ensures counts { CountsPut result (K.faults out.old.sink.now) (K.faults out.new.sink.now) }
{
    for line in lines {
        match put_line(out, line) {
            Ok(()) => {}
            Err(status) => return Err(status),
        }
    }
    Ok(())
}
