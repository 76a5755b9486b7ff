//! Symbols.
ghost use Rattle.std.specs.Prelude.{◌≡◌, ◌∷◌, IfOk, List, Result};
ghost use Rattle.zw_def_syntax.specs.Lexed.{lexed};
ghost use Rattle.zw_def_syntax.specs.Token.{Token as DefinedToken, Fault};
ghost use Rattle.zw_def_world.specs.Quote.{is_one_symbol, symbol_text};
ghost use Rattle.zw_lexer.specs.Token.{AreTokens};
ghost use Rattle.zw_show.specs.Writes.{Writes};

use crate::fault::ShowFault;
use crate::piece::push;
use crate::quote::push_quoted;
use crate::writer::Writer;
use std::alloc::{AllocError, Global};
use zw_lexer::{LexFault, Token, TokenKind, lex};
use zw_names::Names;

/// Whether the tokens are the symbol of a text and nothing else.
fn are_symbol(names: &mut Names, tokens: &[Token], text: &str) -> Result<bool, AllocError>
    ensures { IfOk result (λ b. (reading : Result (List DefinedToken) Fault) → AreTokens names.old reading tokens.now
        → b ≡ is_one_symbol text.now reading) }
{
    let [token] = tokens else {
        return Ok(false);
    };
    match token.kind {
        TokenKind::Symbol(name) => {
            let own = names.intern(text)?;
            names.are_distinct();
            Ok(own.0 == name.0)
        }
        _ => Ok(false),
    }
}

/// Whether `:` and the text are one symbol token and nothing else.
fn is_symbol(alloc: Global, text: &str) -> Result<bool, AllocError>
    ensures { IfOk result (λ b. b ≡ is_one_symbol text.now (lexed (58 ∷ text.now))) }
{
    let mut source = String::from_str(alloc, ":")?;
    source.push_str(text)?;
    let mut names = Names::new(alloc)?;
    match lex(alloc, source.as_bytes(), &mut names) {
        Ok(tokens) => are_symbol(&mut names, tokens.as_slice(), text),
        Err(LexFault::Refused(_)) => Ok(false),
        Err(LexFault::Memory) => Err(AllocError),
    }
}

/// Writes the inspect text of a symbol.
pub(crate) fn push_symbol(writer: &mut Writer, text: &str) -> Result<(), ShowFault>
    ensures { Writes writer.old writer.new (symbol_text text.now) result }
{
    let bare = is_symbol(writer.alloc, text)?;
    push(writer, ":")?;
    if bare {
        return push(writer, text);
    }
    push_quoted(writer, text)
}
