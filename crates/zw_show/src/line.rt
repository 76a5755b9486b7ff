//! Whole texts.
ghost use Rattle.std.specs.Prelude.{◌≡◌, ◌<◌, ◌≤◌, ◌++◌, codes, length, IfOk, string_bytes};
ghost use Rattle.zw_base.specs.Fault.{IfRefused};
ghost use Rattle.zw_def_world.specs.Making.{max_text};
ghost use Rattle.zw_def_world.specs.Quote.{quoted, escaped_text, symbol_text};
ghost use Rattle.zw_show.specs.Writes.{Writes};

use crate::fault::ShowFault;
use crate::piece::push;
use crate::quote::{push_escaped_text, push_quoted};
use crate::symbol::push_symbol;
use crate::writer::{MAX_TEXT, Writer};
use std::alloc::{AllocError, Global};

/// A text in double quotes, which is the inspect text of a text (ISO/IEC 30170, 15.3.1.3.17). One that would be longer
/// than a text may be is refused as soon as it is.
pub fn quoted(alloc: Global, text: &str) -> Result<String, ShowFault>
    ensures quoted { IfOk result (λ made. string_bytes made ≡ quoted text.now) }
    ensures fits { IfOk result (λ made. length (string_bytes made) ≤ max_text) }
    ensures refused { IfRefused result (λ refusal. max_text < length (quoted text.now)) }
{
    let mut writer = Writer::new(alloc, MAX_TEXT);
    push_quoted(&mut writer, text)?;
    Ok(writer.text)
}

/// The inspect text of a symbol (ISO/IEC 30170, 15.3.1.3.17): `:` and its name, bare where these are one symbol token
/// and nothing else, and otherwise in double quotes.
pub fn symbol_text(alloc: Global, name: &str) -> Result<String, ShowFault>
    ensures told { IfOk result (λ made. string_bytes made ≡ symbol_text name.now) }
    ensures fits { IfOk result (λ made. length (string_bytes made) ≤ max_text) }
    ensures refused { IfRefused result (λ refusal. max_text < length (symbol_text name.now)) }
{
    let mut writer = Writer::new(alloc, MAX_TEXT);
    push_symbol(&mut writer, name)?;
    Ok(writer.text)
}

fn push_fault(writer: &mut Writer, class: &str, message: &str) -> Result<(), ShowFault>
    ensures { Writes writer.old writer.new (codes "! " ++ class.now ++ codes ": " ++ escaped_text message.now) result }
{
    push(writer, "! ")?;
    push(writer, class)?;
    push(writer, ": ")?;
    push_escaped_text(writer, message)
}

/// The line of a fault, by the class of its exception and its message, however long that is. Control characters and
/// backslashes of the message are written out.
pub fn fault_line(alloc: Global, class: &str, message: &str) -> Result<String, AllocError>
    ensures { IfOk result (λ line.
        string_bytes line ≡ codes "! " ++ class.now ++ codes ": " ++ escaped_text message.now) }
{
    let mut writer = Writer::new(alloc, usize::MAX);
    match push_fault(&mut writer, class, message) {
        Ok(()) => Ok(writer.text),
        Err(_) => Err(AllocError),
    }
}
