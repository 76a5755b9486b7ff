//! Names, and the tokens that are made of them.
ghost use Rattle.std.specs.Prelude.{◌≡◌, ◌≤◌, ◌+◌, length, string_bytes};
ghost use Rattle.std.specs.List.{take_while};
ghost use Rattle.unicode_ident.specs.Ident.{is_xid_continue};
ghost use Rattle.zw_def.specs.Text.{is_upper};
ghost use Rattle.zw_def_syntax.specs.Character.{first_is};
ghost use Rattle.zw_def_syntax.specs.Word as spec;
ghost use Rattle.zw_lexer.specs.Lexeme.{Reads, lexeme_seen};
ghost use Rattle.zw_lexer.specs.Owner.{kind_of, mark_size};

use crate::character::{begins_name, front_length, is_after_equals, is_mark, is_name_start};
use crate::fault::Reason;
use crate::lexeme::{Lexeme, Piece, PieceFault, text_of};
use std::alloc::Global;

/// Whose a variable is.
#[derive(Clone, Copy)]
enum Owner {
    /// An object's, `@x`.
    Instance,
    /// A class's, `@@x`.
    Class,
}

// How many characters the name at the front has.
fn name_length(characters: &[char]) -> usize
    ensures size { result ≡ length (spec.name characters.now) }
    ensures within { result ≤ length characters.now }
{
    match characters.split_first() {
        None => 0,
        Some((first, rest)) => {
            if is_name_start(*first) {
                1 + front_length(rest, unicode_ident::is_xid_continue)
            } else {
                0
            }
        }
    }
}

fn mark_length(characters: &[char]) -> usize
    ensures size { result ≡ length (spec.mark characters.now) }
    ensures within { result ≤ length characters.now }
{
    match characters.split_first() {
        Some((first, rest)) if is_mark(*first) && !begins_with_equals(rest) => 1,
        _ => 0,
    }
}

fn setter_length(characters: &[char]) -> usize
    ensures size { result ≡ length (spec.setter characters.now) }
    ensures within { result ≤ length characters.now }
{
    match characters.split_first() {
        Some((first, rest)) if *first == '=' && !begins_after_equals(rest) => 1,
        _ => 0,
    }
}

fn begins_with_equals(characters: &[char]) -> bool
    ensures { result ≡ first_is spec.is_equals characters.now }
{
    characters.first().is_some_and(|c| *c == '=')
}

fn begins_after_equals(characters: &[char]) -> bool
    ensures { result ≡ first_is spec.is_after_equals characters.now }
{
    characters.first().is_some_and(|c| is_after_equals(*c))
}

fn begins_constant(characters: &[char]) -> bool
    ensures { result ≡ first_is is_upper characters.now }
{
    characters.first().is_some_and(|c| c.is_ascii_uppercase())
}

fn word_length(characters: &[char]) -> usize
    ensures size { result ≡ length (spec.word characters.now) }
    ensures within { result ≤ length characters.now }
{
    let size = name_length(characters);
    if begins_constant(characters) {
        return size;
    }
    size + mark_length(&characters[size..])
}

fn symbol_length(characters: &[char]) -> usize
    ensures size { result ≡ length (spec.symbol_name characters.now) }
    ensures within { result ≤ length characters.now }
{
    let size = word_length(characters);
    size + setter_length(&characters[size..])
}

// What a word is, by its first character.
fn word_lexeme(characters: &[char], text: String) -> Lexeme
    ensures { lexeme_seen result ≡ spec.word_kind characters.now (string_bytes text) }
{
    if begins_constant(characters) {
        Lexeme::Constant(text)
    } else {
        Lexeme::Identifier(text)
    }
}

/// The word at the front of the characters, which begin with that of a name.
pub(crate) fn word(alloc: Global, characters: &[char]) -> Result<Piece, PieceFault>
    ensures { Reads result (spec.word_token characters.now) }
{
    let size = word_length(characters);
    let text = text_of(alloc, &characters[..size])?;
    Ok(Piece::token(word_lexeme(characters, text), size))
}

/// The symbol whose `:` stands before the characters.
pub(crate) fn symbol(alloc: Global, characters: &[char]) -> Result<Piece, PieceFault>
    ensures { Reads result (spec.symbol_token characters.now) }
{
    let size = symbol_length(characters);
    let text = text_of(alloc, &characters[..size])?;
    Ok(Piece::token(Lexeme::Symbol(text), 1 + size))
}

impl Owner {
    fn lexeme(self, name: String) -> Lexeme
        ensures { lexeme_seen result ≡ kind_of self (string_bytes name) }
    {
        match self {
            Owner::Instance => Lexeme::InstanceVariable(name),
            Owner::Class => Lexeme::ClassVariable(name),
        }
    }

    // How many `@` stand before its name.
    fn mark_size(self) -> usize
        ensures value { result ≡ mark_size self }
        ensures small { result ≤ 2 }
    {
        match self {
            Owner::Instance => 1,
            Owner::Class => 2,
        }
    }
}

// The variable whose `@` or `@@` stands before the characters.
fn variable_of(alloc: Global, owner: Owner, characters: &[char]) -> Result<Piece, PieceFault>
    ensures { Reads result (spec.variable (kind_of owner) (mark_size owner) characters.now) }
{
    if !begins_name(characters) {
        return Err(PieceFault::Refused(Reason::NamelessVariable));
    }
    let size = name_length(characters);
    let name = text_of(alloc, &characters[..size])?;
    Ok(Piece::token(owner.lexeme(name), owner.mark_size() + size))
}

/// The variable whose first `@` stands before the characters.
pub(crate) fn variable(alloc: Global, characters: &[char]) -> Result<Piece, PieceFault>
    ensures { Reads result (spec.variable_token characters.now) }
{
    match characters.split_first() {
        Some(('@', name)) => variable_of(alloc, Owner::Class, name),
        _ => variable_of(alloc, Owner::Instance, characters),
    }
}
