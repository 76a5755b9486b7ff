//! The lines of `runs`, as one text.
ghost use Rattle.std.specs.Prelude.{◌≡◌, ◌≢◌, [], IfOk};
ghost use Rattle.std.specs.List.{list_any};
ghost use Rattle.zw_def.specs.Line.{lines_of};
ghost use Rattle.zw_def_session.specs.Commands.{is_long_line};
ghost use Rattle.zw_cmd.specs.Script.{TellsScript};

use crate::line::{first_line, without_return};
use std::alloc::{AllocError, Global};

/// How many bytes a line may have.
const MOST_LINE: usize = 1_048_576;

/// Whether one of the lines is too long.
pub(crate) fn has_long_line(bytes: &[u8]) -> bool
    ensures { result ≡ list_any is_long_line (lines_of bytes.now) }
{
    let mut left = bytes;
    'lines: while !left.is_empty() {
        let (line, after) = first_line(left);
        if line.len() > MOST_LINE {
            return true;
        }
        left = after;
    }
    false
}

/// The lines, each without a CR at its end, with an LF between them; and None where one of them is not UTF-8.
pub(crate) fn script(alloc: Global, bytes: &[u8]) -> Result<Option<String>, AllocError>
    ensures { IfOk result (λ text. TellsScript text (lines_of bytes.now)) }
{
    let mut text = String::new(alloc);
    let mut left = bytes;
    'lines: while !left.is_empty() {
        let (line, after) = first_line(left);
        match std::str::from_utf8(line) {
            Err(_) => return Ok(None),
            Ok(line) => text.push_str(without_return(line))?,
        }
        if !after.is_empty() {
            text.push('\n')?;
        }
        left = after;
    }
    Ok(Some(text))
}
