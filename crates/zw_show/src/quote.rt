//! Texts in double quotes, and without.
ghost use Rattle.std.specs.Prelude.{◌≡◌, ◌∷◌, ◌++◌, length, IfOk, string_bytes};
ghost use Rattle.std.specs.Str.Iter.{chars_rest};
ghost use Rattle.zw_def_world.specs.Quote.{begins_interpolation, quoted, escaped_text};
ghost use Rattle.zw_show.specs.Writes.{Writes, quoted_char};

use crate::fault::ShowFault;
use crate::piece::{push, push_escaped};
use crate::writer::Writer;

/// Whether `#` before it would begin an interpolation.
fn is_behind_interpolation(rest: &str) -> bool
    ensures { result ≡ begins_interpolation rest.now }
{
    match rest.as_bytes().first() {
        Some(b'{') => true,
        Some(b'$') => true,
        Some(b'@') => true,
        _ => false,
    }
}

/// Writes a character of a text in double quotes, before the rest of the text.
fn push_quoted_char(writer: &mut Writer, character: char, rest: &str) -> Result<(), ShowFault>
    ensures { Writes writer.old writer.new (quoted_char character rest.now) result }
{
    match character {
        '"' => push(writer, "\\\""),
        '#' if is_behind_interpolation(rest) => push(writer, "\\#"),
        _ => push_escaped(writer, character),
    }
}

/// Writes a text in double quotes (ISO/IEC 30170, 8.7.6.3.3).
pub(crate) fn push_quoted(writer: &mut Writer, text: &str) -> Result<(), ShowFault>
    ensures { Writes writer.old writer.new (quoted text.now) result }
{
    push(writer, "\"")?;
    let mut rest = text.chars();
    while let Some(character) = rest.next() {
        push_quoted_char(writer, character, rest.as_str())?;
    }
    push(writer, "\"")
}

/// Writes a text without quotes, as a fault line has it.
pub(crate) fn push_escaped_text(writer: &mut Writer, text: &str) -> Result<(), ShowFault>
    ensures { Writes writer.old writer.new (escaped_text text.now) result }
{
    let mut rest = text.chars();
    while let Some(character) = rest.next() {
        push_escaped(writer, character)?;
    }
    Ok(())
}
