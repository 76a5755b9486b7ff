//! Words are told apart, and line ends that separate nothing are dropped. The tokens that are still to come stand in a
//! list with the next one last.
ghost use Rattle.std.specs.Prelude.{◌≡◌, ◌<◌, ◌&&◌, ◌++◌, ◌∷◌, [], List, None, IfNone, IfSome, IfOk, IfErr, OnOk, codes, length, map};
ghost use Rattle.zw_def.specs.Text.{Text};
ghost use Rattle.zw_def_syntax.specs.Token as kind;
ghost use Rattle.zw_def_syntax.specs.Token.{Kind};
ghost use Rattle.zw_def_syntax.specs.Lexed as spec;
ghost use Rattle.zw_def_syntax.specs.Lexed.{is_sign, is_keyword, is_newline, is_closer, goes_on, drops_end, word_kind, kind_after};
ghost use Rattle.zw_def.specs.Names.{OnlyGrows};
ghost use Rattle.zw_lexer.specs.Fault.{Faults};
ghost use Rattle.zw_lexer.specs.Keyword.{keyword_text};
ghost use Rattle.zw_lexer.specs.Lexeme.{lexeme_seen};
ghost use Rattle.zw_lexer.specs.Punctuation.{sign_text};
ghost use Rattle.zw_lexer.specs.Scan.{raw_seen, turned};
ghost use Rattle.zw_lexer.specs.Settle.{last_kind, apart_kind, token_with, SignOf, Settles};
ghost use Rattle.zw_lexer.specs.Token.{kind_seen, token_seen, tokens_seen, AreTokens};

use crate::fault::{LexFault, Reason, SyntaxFault};
use crate::keyword::{Keyword, is_outside};
use crate::lexeme::Lexeme;
use crate::punctuation::Punctuation;
use crate::scan::{Raw, Span};
use crate::token::{Token, TokenKind};
use std::alloc::{AllocError, Global};
use zw_names::Names;

/// What a word is told to be.
#[derive(Clone, Copy)]
enum Apart {
    /// What it is by its form.
    Plain,
    Keyword(Keyword),
    /// A word that the language does not have.
    Outside,
}

// ---- signs and words that decide

fn closes(sign: Punctuation) -> bool
    ensures { result ≡ is_closer (kind.sign (sign_text sign)) }
{
    matches!(
        sign,
        Punctuation::CloseParenthesis | Punctuation::CloseBracket | Punctuation::Dot
    )
}

fn is_dot(sign: Punctuation) -> bool
    ensures { result ≡ is_sign (codes ".") (kind.sign (sign_text sign)) }
{
    matches!(sign, Punctuation::Dot)
}

// Whether a line end after the sign is dropped.
fn ends_no_line(sign: Punctuation) -> bool
    ensures { result ≡ goes_on (kind.sign (sign_text sign)) }
{
    !matches!(
        sign,
        Punctuation::CloseParenthesis | Punctuation::CloseBracket | Punctuation::Semicolon
    )
}

fn is_def(word: Keyword) -> bool
    ensures { result ≡ is_keyword (codes "def") (kind.keyword (keyword_text word)) }
{
    matches!(word, Keyword::Def)
}

// Whether a line end after the keyword is dropped.
fn joins_lines(word: Keyword) -> bool
    ensures { result ≡ goes_on (kind.keyword (keyword_text word)) }
{
    matches!(word, Keyword::And | Keyword::Not | Keyword::Or)
}

// ---- line ends before a closer

fn is_line_end(raw: &Raw) -> bool
    ensures { result ≡ is_newline (raw_seen raw.now).kind }
{
    matches!(raw.lexeme, Lexeme::Newline)
}

// The sign that a token is, if it is one.
fn sign_of(raw: &Raw) -> Option<Punctuation>
    ensures { SignOf result (raw_seen raw.now).kind }
{
    match raw.lexeme {
        Lexeme::Sign(sign) => Some(sign),
        _ => None,
    }
}

// Whether the next token is a `)`, `]` or `.`.
fn closer_follows(left: &[Raw]) -> bool
    ensures { result ≡ spec.first_kind is_closer (turned left.now) }
{
    left.last().and_then(sign_of).is_some_and(closes)
}

// Whether the next token is a `.`.
fn dot_follows(left: &[Raw]) -> bool
    ensures { result ≡ spec.first_kind (is_sign (codes ".")) (turned left.now) }
{
    left.last().and_then(sign_of).is_some_and(is_dot)
}

// Puts a token before those that are kept, unless it is a line end that is dropped.
fn keep(raw: Raw, kept: &mut Vec<Raw>) -> Result<(), AllocError>
    ensures { OnOk result (turned kept.new.items ≡ spec.before_tokens (raw_seen raw) (turned kept.old.items)) }
{
    if is_line_end(&raw) && closer_follows(kept) {
        return Ok(());
    }
    kept.push(raw)?;
    Ok(())
}

// Takes the last token of a list.
fn take_last(tokens: &mut Vec<Raw>) -> Option<Raw>
    ensures none { IfNone result (tokens.old.items ≡ []) }
    ensures some { IfSome result (λ raw.
        map raw_seen tokens.old.items ≡ map raw_seen tokens.new.items ++ raw_seen raw ∷ []) }
    ensures turned { IfSome result (λ raw. turned tokens.old.items ≡ raw_seen raw ∷ turned tokens.new.items) }
    ensures shorter { IfSome result (λ raw. length tokens.new.items < length tokens.old.items) }
{
    tokens.pop()
}

/// The tokens without the line ends before `)`, `]` and `.`, the next one last.
pub(crate) fn without_ends_before(
    alloc: Global,
    mut tokens: Vec<Raw>,
) -> Result<Vec<Raw>, AllocError>
    ensures { IfOk result (λ kept. turned kept.items ≡ spec.without_ends_before (map raw_seen tokens.items)) }
{
    let mut kept = Vec::new(alloc);
    'tokens: while let Some(raw) = take_last(&mut tokens) {
        keep(raw, &mut kept)?;
    }
    Ok(kept)
}

// ---- the token before

// Whether a line end after the token is dropped.
fn goes_on_after(kind: &TokenKind) -> bool
    ensures { (names : List Text) → result ≡ goes_on (kind_seen names kind.now) }
{
    match kind {
        TokenKind::Sign(sign) => ends_no_line(*sign),
        TokenKind::Keyword(word) => joins_lines(*word),
        _ => false,
    }
}

// Whether a line end is dropped after these tokens.
fn drops_end_after(settled: &[Token]) -> bool
    ensures { (names : List Text) → result ≡ drops_end (last_kind names settled.now) }
{
    match settled.last() {
        None => true,
        Some(token) => goes_on_after(&token.kind),
    }
}

// Whether the token is a line end that is dropped after these tokens.
fn is_dropped(raw: &Raw, settled: &[Token]) -> bool
    ensures { (names : List Text) →
        result ≡ (is_newline (raw_seen raw.now).kind && drops_end (last_kind names settled.now)) }
{
    is_line_end(raw) && drops_end_after(settled)
}

fn is_dot_token(kind: &TokenKind) -> bool
    ensures { (names : List Text) → result ≡ is_sign (codes ".") (kind_seen names kind.now) }
{
    match kind {
        TokenKind::Sign(sign) => is_dot(*sign),
        _ => false,
    }
}

fn is_def_token(kind: &TokenKind) -> bool
    ensures { (names : List Text) → result ≡ is_keyword (codes "def") (kind_seen names kind.now) }
{
    match kind {
        TokenKind::Keyword(word) => is_def(*word),
        _ => false,
    }
}

// ---- words

// Whether the word is `self` with a `.` after it.
fn is_singleton(word: &str, left: &[Raw]) -> bool
    ensures { result ≡ spec.is_singleton word.now (turned left.now) }
{
    word == "self" && dot_follows(left)
}

// Whether the word is a plain name, by the token before it.
fn is_name_here(settled: &[Token], word: &str, left: &[Raw]) -> bool
    ensures { (names : List Text) →
        result ≡ spec.is_name_after (last_kind names settled.now) word.now (turned left.now) }
{
    match settled.last() {
        None => false,
        Some(token) => {
            is_dot_token(&token.kind) || (is_def_token(&token.kind) && !is_singleton(word, left))
        }
    }
}

fn told_apart(settled: &[Token], word: &str, left: &[Raw]) -> Apart
    ensures { (names : List Text) (plain : Kind) →
        word_kind plain (spec.is_name_after (last_kind names settled.now) word.now (turned left.now)) word.now
        ≡ apart_kind plain result }
{
    if is_name_here(settled, word, left) {
        return Apart::Plain;
    }
    if is_outside(word) {
        return Apart::Outside;
    }
    match Keyword::of(word) {
        Some(keyword) => Apart::Keyword(keyword),
        None => Apart::Plain,
    }
}

// What a token is told to be, after these and before those that are left.
fn apart_of(settled: &[Token], lexeme: &Lexeme, left: &[Raw]) -> Apart
    ensures { (names : List Text) →
        kind_after (last_kind names settled.now) (lexeme_seen lexeme.now) (turned left.now)
        ≡ apart_kind (lexeme_seen lexeme.now) result }
{
    match lexeme {
        Lexeme::Identifier(word) | Lexeme::Constant(word) => told_apart(settled, word, left),
        _ => Apart::Plain,
    }
}

// What a token is by its form, its name numbered.
fn plain_kind(names: &mut Names, lexeme: Lexeme) -> Result<TokenKind, AllocError>
    ensures told { IfOk result (λ kind.
        (all : List Text) → OnlyGrows names.new all → kind_seen all kind ≡ lexeme_seen lexeme) }
    ensures grows { OnlyGrows names.old names.new }
{
    Ok(match lexeme {
        Lexeme::Newline => TokenKind::Newline,
        Lexeme::Identifier(text) => TokenKind::Identifier(names.intern(&text)?),
        Lexeme::Constant(text) => TokenKind::Constant(names.intern(&text)?),
        Lexeme::Integer(value) => TokenKind::Integer(value),
        Lexeme::InstanceVariable(text) => TokenKind::InstanceVariable(names.intern(&text)?),
        Lexeme::ClassVariable(text) => TokenKind::ClassVariable(names.intern(&text)?),
        Lexeme::Symbol(text) => TokenKind::Symbol(names.intern(&text)?),
        Lexeme::Text(text) => TokenKind::Text(text),
        Lexeme::TextBegin(text) => TokenKind::TextBegin(text),
        Lexeme::TextMiddle(text) => TokenKind::TextMiddle(text),
        Lexeme::TextEnd(text) => TokenKind::TextEnd(text),
        Lexeme::Sign(sign) => TokenKind::Sign(sign),
    })
}

fn token(kind: TokenKind, span: Span) -> Token
    ensures { (names : List Text) → token_seen names result ≡ token_with (kind_seen names kind) span }
{
    Token {
        kind,
        line: span.line,
        start: span.start,
        end: span.end,
        blank_before: span.blank_before,
        blank_after: span.blank_after,
    }
}

fn push_token(settled: &mut Vec<Token>, kind: TokenKind, span: Span) -> Result<(), AllocError>
    ensures { OnOk result ((names : List Text) → tokens_seen names settled.new.items
        ≡ tokens_seen names settled.old.items ++ token_with (kind_seen names kind) span ∷ []) }
{
    settled.push(token(kind, span))?;
    Ok(())
}

// Settles one token, which stands after those that are settled.
fn settle_token(
    names: &mut Names,
    settled: &mut Vec<Token>,
    raw: Raw,
    left: &[Raw],
) -> Result<(), LexFault>
    ensures steps { Settles result names.new settled.old.items settled.new.items (raw_seen raw) (turned left.now) }
    ensures grows { OnlyGrows names.old names.new }
{
    let span = raw.span;
    match apart_of(settled, &raw.lexeme, left) {
        Apart::Outside => Err(LexFault::Refused(SyntaxFault {
            line: span.line,
            reason: Reason::OutsideWord,
        })),
        Apart::Keyword(word) => {
            push_token(settled, TokenKind::Keyword(word), span)?;
            Ok(())
        }
        Apart::Plain => {
            let kind = plain_kind(names, raw.lexeme)?;
            push_token(settled, kind, span)?;
            Ok(())
        }
    }
}

/// The tokens that are left, the next one last, with their words told apart and without the line ends that separate
/// nothing.
pub(crate) fn settle(
    alloc: Global,
    names: &mut Names,
    mut left: Vec<Raw>,
) -> Result<Vec<Token>, LexFault>
    ensures told { IfOk result (λ tokens. AreTokens names.new (spec.settled None (turned left.items)) tokens.items) }
    ensures fault { IfErr result (λ fault. Faults fault (spec.settled None (turned left.items))) }
    ensures grows { OnlyGrows names.old names.new }
{
    let mut settled = Vec::new(alloc);
    'tokens: while let Some(raw) = take_last(&mut left) {
        if is_dropped(&raw, &settled) {
            continue;
        }
        settle_token(names, &mut settled, raw, &left)?;
    }
    Ok(settled)
}
