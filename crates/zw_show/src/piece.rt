//! Pieces of texts.
ghost use Rattle.std.specs.Prelude.{◌<◌};
ghost use Rattle.std.specs.Char.{encode_utf8};
ghost use Rattle.zw_def_world.specs.Quote.{control_text};
ghost use Rattle.zw_show.specs.Writes.{Writes, escaped_char};

use crate::fault::{ShowFault, TooLong};
use crate::writer::Writer;

/// Writes a text as it is.
pub(crate) fn push(writer: &mut Writer, piece: &str) -> Result<(), ShowFault>
    ensures { Writes writer.old writer.new piece.now result }
{
    if writer.text.len() + piece.len() > writer.most {
        return Err(ShowFault::Refused(TooLong::TooLong));
    }
    writer.text.push_str(piece)?;
    Ok(())
}

/// Writes a character as it is.
fn push_char(writer: &mut Writer, character: char) -> Result<(), ShowFault>
    ensures { Writes writer.old writer.new (encode_utf8 character) result }
{
    if writer.text.len() + character.len_utf8() > writer.most {
        return Err(ShowFault::Refused(TooLong::TooLong));
    }
    writer.text.push(character)?;
    Ok(())
}

/// Writes a control character by its number.
fn push_control(writer: &mut Writer, character: char) -> Result<(), ShowFault>
    requires { character < 128 }
    ensures { Writes writer.old writer.new (control_text character) result }
{
    let number = character as u32;
    let text = format!(in writer.alloc; "\\u{{{number:x}}}")?;
    push(writer, text.as_str())
}

/// Writes a character of a text without quotes.
pub(crate) fn push_escaped(writer: &mut Writer, character: char) -> Result<(), ShowFault>
    ensures { Writes writer.old writer.new (escaped_char character) result }
{
    match character {
        '\\' => push(writer, "\\\\"),
        '\n' => push(writer, "\\n"),
        '\t' => push(writer, "\\t"),
        '\r' => push(writer, "\\r"),
        '\0'..='\u{1f}' => push_control(writer, character),
        '\u{7f}' => push_control(writer, character),
        _ => push_char(writer, character),
    }
}
