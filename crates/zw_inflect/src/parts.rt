//! The parts of a base between its `_`.
ghost use Rattle.std.specs.Prelude.{◌≡◌, if◌then◌else◌, IfOk, string_bytes};
ghost use Rattle.zw_def.specs.Constant.{camelized, raised, lowered};

use std::alloc::{AllocError, Global};

/// A character of a name, at the begin of a part or within one.
fn letter(begins: bool, character: char) -> char
    ensures { result ≡ (if begins then raised character else lowered character) }
{
    if begins {
        character.to_ascii_uppercase()
    } else {
        character.to_ascii_lowercase()
    }
}

/// The name that a base gives: its parts between the `_`, each with its first letter raised and the others lowered.
/// Letters are those of ASCII (Zeitwerk README, "Inflection").
pub(crate) fn camelize(alloc: Global, base: &str) -> Result<String, AllocError>
    ensures { IfOk result (λ name. string_bytes name ≡ camelized base.now) }
{
    let mut name = String::new(alloc);
    let mut begins = true;
    for character in base.chars() {
        if character == '_' {
            begins = true;
            continue;
        }
        name.push(letter(begins, character))?;
        begins = false;
    }
    Ok(name)
}
