//! A cursor over the tokens of a text.
ghost use Rattle.std.specs.Prelude.{◌≡◌, ◌≤◌, false, IfSome, IfOk, Some, None, length, option_map};
ghost use Rattle.zw_def.specs.Names.{texts_of};
ghost use Rattle.zw_def_syntax.specs.Input as spec;
ghost use Rattle.zw_def_syntax.specs.Lexed.{is_sign, is_keyword};
ghost use Rattle.zw_def_syntax.specs.Word.{is_mark};
ghost use Rattle.zw_lexer.specs.Held.{HoldNames};
ghost use Rattle.zw_lexer.specs.Keyword.{keyword_text};
ghost use Rattle.zw_lexer.specs.Punctuation.{sign_text};
ghost use Rattle.zw_lexer.specs.Token.{kind_seen, token_seen};
ghost use Rattle.zw_ast.specs.Named.{IsName};
ghost use Rattle.zw_ast.specs.Node.{name_seen};
ghost use Rattle.zw_expr.specs.Reads.{Reads, take_named};
ghost use Rattle.zw_expr.specs.Front.{front_seen};
ghost use Rattle.std.specs.List.{list_any};
ghost use Rattle.std.specs.Option.{option_map_or};
ghost use Rattle.std.specs.Str.{bytes_eq};
ghost use Rattle.zw_expr.specs.Kind.{sign_of, keyword_of};
ghost use Rattle.zw_expr.specs.Named.{AreNumbers, token_bound, kind_bound};

use crate::known::Known;
use std::marker::Model;
use std::mem;
use zw_ast::{MakeFault, Malformed};
use zw_lexer::{Keyword, Punctuation, Token, TokenKind};
use zw_names::{Name, Names};

fn is_mark(byte: u8) -> bool
    ensures { result ≡ is_mark byte }
{
    byte == b'?' || byte == b'!'
}

fn has_mark(name: &str) -> bool
    ensures { result ≡ list_any is_mark name.now }
{
    name.as_bytes().iter().any(|byte| is_mark(*byte))
}

/// No more brackets may be open at once.
const MAX_BRACKETS: usize = 250;

fn is_this_sign(kind: &TokenKind, sign: Punctuation) -> bool
    ensures { result ≡ option_map_or (λ s. bytes_eq (sign_text s) (sign_text sign)) (sign_of kind.now) false }
{
    match kind {
        TokenKind::Sign(found) => found.text() == sign.text(),
        _ => false,
    }
}

fn is_this_keyword(kind: &TokenKind, word: Keyword) -> bool
    ensures { result ≡ option_map_or (λ k. bytes_eq (keyword_text k) (keyword_text word)) (keyword_of kind.now) false }
{
    match kind {
        TokenKind::Keyword(found) => found.text() == word.text(),
        _ => false,
    }
}

/// The tokens that are still to be read, with the variables that are known and the brackets that are open. Contracts
/// see them by their texts.
#[derive(Drop)]
pub struct Cursor<'t> {
    names: &'t Names,
    rest: &'t [Token],
    known: Known,
    open_brackets: usize,
}

impl<'t> Model for Cursor<'t> {
    ghost use Rattle.zw_expr.specs.Front.{Front, front_seen};
    ghost use Rattle.zw_expr.specs.Named.{AreInTable, AreNumbers};

    ghost Value = { Front };

    ghost view = { λ c. front_seen c.names.now c.rest.now c.known c.open_brackets };

    ghost invariant = { λ c. AreInTable c.names.now c.rest.now × AreNumbers c.names.now c.known };
}

impl<'t> Cursor<'t> {
    /// A cursor at the first of the tokens.
    #[tactic(auto, using(crate::proofs::HeldLemmas::tokens_held))]
    pub fn new(names: &'t Names, tokens: &'t [Token], known: Known) -> Cursor<'t>
        requires tokens { HoldNames names.now tokens.now }
        requires known { AreNumbers names.now known }
        ensures { result ≡ front_seen names.now tokens.now known 0 }
    {
        Cursor {
            names,
            rest: tokens,
            known,
            open_brackets: 0,
        }
    }

    /// The token that so many others stand before.
    #[tactic(auto, using(crate::proofs::ListLemmas::greatest_at), unfolding(zw_def_syntax::specs::Input::token_at))]
    pub fn at(&self, place: usize) -> Option<&'t Token>
        ensures told { option_map (λ t. token_seen self.now.names t.now) result ≡ spec.token_at place self.now.input }
        ensures named { IfSome result (λ t. token_bound t.now ≤ length self.now.names) }
    {
        self.rest.get(place)
    }

    /// What the next token is.
    pub fn kind(&self) -> Option<&'t TokenKind>
        ensures told { option_map (λ k. kind_seen self.now.names k.now) result ≡ spec.kind_at 0 self.now.input }
        ensures named { IfSome result (λ k. kind_bound k.now ≤ length self.now.names) }
    {
        let token = self.at(0)?;
        Some(&token.kind)
    }

    /// How many tokens are left.
    pub fn left(&self) -> usize
        ensures { result ≡ length self.now.input.rest }
    {
        self.rest.len()
    }

    /// Whether a token is this sign.
    pub fn sign_at(&self, place: usize, sign: Punctuation) -> bool
        ensures { result ≡ spec.kind_is (is_sign (sign_text sign)) place self.now.input }
    {
        match self.at(place) {
            Some(token) => is_this_sign(&token.kind, sign),
            None => false,
        }
    }

    /// Whether the next token is this sign.
    pub fn sign_next(&self, sign: Punctuation) -> bool
        ensures { result ≡ spec.kind_is (is_sign (sign_text sign)) 0 self.now.input }
    {
        self.sign_at(0, sign)
    }

    /// Whether the next token is this keyword.
    pub fn keyword_next(&self, word: Keyword) -> bool
        ensures { result ≡ spec.kind_is (is_keyword (keyword_text word)) 0 self.now.input }
    {
        match self.kind() {
            Some(kind) => is_this_keyword(kind, word),
            None => false,
        }
    }

    /// Passes over the next token.
    #[tactic(auto, using(crate::proofs::ListLemmas::greatest_drop), unfolding(zw_def_syntax::specs::Input::next))]
    pub fn take_token(&mut self)
        ensures taken { self.new.input ≡ spec.next self.old.input }
        ensures names { self.new.names ≡ self.old.names }
    {
        if !self.rest.is_empty() {
            self.rest = &self.rest[1..];
        }
    }

    /// Passes over a sign.
    pub fn take_sign(&mut self, sign: Punctuation) -> Result<(), MakeFault>
        ensures reads { Reads (λ x. x) (spec.take_if (spec.kind_is (is_sign (sign_text sign)) 0))
            self.old.input result self.new.input }
        ensures names { self.new.names ≡ self.old.names }
    {
        if !self.sign_next(sign) {
            return Err(MakeFault::Refused(Malformed));
        }
        self.take_token();
        Ok(())
    }

    /// Passes over a keyword.
    pub fn take_keyword(&mut self, word: Keyword) -> Result<(), MakeFault>
        ensures reads { Reads (λ x. x) (spec.take_if (spec.kind_is (is_keyword (keyword_text word)) 0))
            self.old.input result self.new.input }
        ensures names { self.new.names ≡ self.old.names }
    {
        if !self.keyword_next(word) {
            return Err(MakeFault::Refused(Malformed));
        }
        self.take_token();
        Ok(())
    }

    /// Passes over a token that opens a bracket. No more than 250 may be open.
    #[tactic(auto, unfolding(zw_def_syntax::specs::Input::open_bracket, zw_def_syntax::specs::Input::next))]
    pub fn open_bracket(&mut self) -> Result<(), MakeFault>
        ensures reads { Reads (λ x. x) spec.open_bracket self.old.input result self.new.input }
        ensures names { self.new.names ≡ self.old.names }
    {
        if self.open_brackets >= MAX_BRACKETS {
            return Err(MakeFault::Refused(Malformed));
        }
        self.open_brackets += 1;
        self.take_token();
        Ok(())
    }

    /// Passes over a token that closes one.
    #[tactic(auto, unfolding(zw_def_syntax::specs::Input::close_bracket, zw_def_syntax::specs::Input::next))]
    pub fn close_bracket(&mut self)
        ensures closed { spec.close_bracket self.old.input ≡ Some (tt, self.new.input) }
        ensures names { self.new.names ≡ self.old.names }
    {
        self.open_brackets = self.open_brackets.saturating_sub(1);
        self.take_token();
    }

    /// Passes over a sign that opens a bracket.
    pub fn open_sign(&mut self, sign: Punctuation) -> Result<(), MakeFault>
        ensures reads { Reads (λ x. x)
            (spec.if_here (spec.kind_is (is_sign (sign_text sign)) 0) spec.open_bracket spec.refuse)
            self.old.input result self.new.input }
        ensures names { self.new.names ≡ self.old.names }
    {
        if !self.sign_next(sign) {
            return Err(MakeFault::Refused(Malformed));
        }
        self.open_bracket()
    }

    /// Passes over a sign that closes one.
    pub fn close_sign(&mut self, sign: Punctuation) -> Result<(), MakeFault>
        ensures reads { Reads (λ x. x)
            (spec.if_here (spec.kind_is (is_sign (sign_text sign)) 0) spec.close_bracket spec.refuse)
            self.old.input result self.new.input }
        ensures names { self.new.names ≡ self.old.names }
    {
        if !self.sign_next(sign) {
            return Err(MakeFault::Refused(Malformed));
        }
        self.close_bracket();
        Ok(())
    }

    /// From here on the variable is known.
    #[tactic(auto, using(crate::proofs::ListLemmas::greatest_pushed), unfolding(zw_def_syntax::specs::Input::learn))]
    pub fn learn(&mut self, name: Name) -> Result<(), MakeFault>
        requires { IsName self.old.names name }
        ensures reads { Reads (λ x. x) (spec.learn (name_seen self.old.names name)) self.old.input result self.new.input }
        ensures names { self.new.names ≡ self.old.names }
    {
        self.known.push(name)?;
        Ok(())
    }

    /// Other variables are known from here on, in place of those that were.
    pub fn replace_known(&mut self, known: Known) -> Known
        requires { AreNumbers self.old.names known }
        ensures known { self.new.input ≡ record self.old.input { known = texts_of self.old.names known } }
        ensures before { texts_of self.old.names result ≡ self.old.input.known }
        ensures named { AreNumbers self.old.names result }
        ensures names { self.new.names ≡ self.old.names }
    {
        mem::replace(&mut self.known, known)
    }

    /// Whether the variable is known.
    #[tactic(auto, unfolding(zw_def_syntax::specs::Input::is_known))]
    pub fn is_known(&self, name: Name) -> bool
        requires { IsName self.now.names name }
        ensures { result ≡ spec.is_known (name_seen self.now.names name) self.now.input }
    {
        self.names.are_distinct();
        self.known.contains(name)
    }

    /// Whether a name has no `?` and no `!` at its end, as a variable has none.
    pub fn is_plain(&self, name: Name) -> bool
        requires { IsName self.now.names name }
        ensures { result ≡ spec.is_plain (name_seen self.now.names name) }
    {
        !has_mark(self.text(name))
    }

    fn text(&self, name: Name) -> &'t str
        requires { IsName self.now.names name }
        ensures { result.now ≡ name_seen self.now.names name }
    {
        self.names.text(name)
    }

    /// The name that the next token is, where it is an identifier or a constant.
    fn word(&self) -> Option<Name>
        ensures told { option_map (name_seen self.now.names) result
            ≡ option_map_or spec.word_of (spec.kind_at 0 self.now.input) None }
        ensures named { IfSome result (IsName self.now.names) }
    {
        match self.kind()? {
            TokenKind::Identifier(name) | TokenKind::Constant(name) => Some(*name),
            _ => None,
        }
    }

    /// The name that the next token is, where it is a constant.
    fn constant(&self) -> Option<Name>
        ensures told { option_map (name_seen self.now.names) result
            ≡ option_map_or spec.constant_of (spec.kind_at 0 self.now.input) None }
        ensures named { IfSome result (IsName self.now.names) }
    {
        match self.kind()? {
            TokenKind::Constant(name) => Some(*name),
            _ => None,
        }
    }

    /// The name that the next token is, where it is one that a variable can have.
    fn variable(&self) -> Option<Name>
        ensures told { option_map (name_seen self.now.names) result
            ≡ option_map_or spec.variable_of (spec.kind_at 0 self.now.input) None }
        ensures named { IfSome result (IsName self.now.names) }
    {
        match self.kind()? {
            TokenKind::Identifier(name) if self.is_plain(*name) => Some(*name),
            _ => None,
        }
    }

    fn take_name(&mut self, name: Option<Name>) -> Result<Name, MakeFault>
        requires { IfSome name (IsName self.old.names) }
        ensures reads { Reads (name_seen self.old.names)
            (take_named (option_map (name_seen self.old.names) name))
            self.old.input result self.new.input }
        ensures named { IfOk result (IsName self.new.names) }
        ensures names { self.new.names ≡ self.old.names }
    {
        let Some(name) = name else {
            return Err(MakeFault::Refused(Malformed));
        };
        self.take_token();
        Ok(name)
    }

    /// Passes over an identifier or a constant.
    pub fn take_word(&mut self) -> Result<Name, MakeFault>
        ensures reads { Reads (name_seen self.old.names) (spec.take_name spec.word_of)
            self.old.input result self.new.input }
        ensures named { IfOk result (IsName self.new.names) }
        ensures names { self.new.names ≡ self.old.names }
    {
        let name = self.word();
        self.take_name(name)
    }

    /// Passes over a constant.
    pub fn take_constant(&mut self) -> Result<Name, MakeFault>
        ensures reads { Reads (name_seen self.old.names) (spec.take_name spec.constant_of)
            self.old.input result self.new.input }
        ensures named { IfOk result (IsName self.new.names) }
        ensures names { self.new.names ≡ self.old.names }
    {
        let name = self.constant();
        self.take_name(name)
    }

    /// Passes over a name that a variable can have.
    pub fn take_variable(&mut self) -> Result<Name, MakeFault>
        ensures reads { Reads (name_seen self.old.names) (spec.take_name spec.variable_of)
            self.old.input result self.new.input }
        ensures named { IfOk result (IsName self.new.names) }
        ensures names { self.new.names ≡ self.old.names }
    {
        let name = self.variable();
        self.take_name(name)
    }
}
