//! Texts, with the tokens or the fault that the rules of the language give them, written by hand. A token is shown by
//! its kind: `x`, `const X`, `int 1`, `@x`, `@@x`, `:x`, `"text"`, `kw:if`, a sign as it is, and `NL`. A text with
//! interpolations is shown as `"a#{ .. }b#{ .. }c"`.
mod lines;
mod numbers;
mod signs;
mod texts;
mod words;

use std::alloc::{AllocError, Global};
use std::process::Abort;
use zw_lexer::{LexFault, Token, TokenKind, lex};
use zw_names::{Name, Names};

fn text_of<'a>(rt: &impl Abort, names: &'a Names, name: Name) -> &'a str {
    assert!(rt; name.0 < names.len());
    names.text(name)
}

fn quoted(alloc: Global, front: &str, text: &str, back: &str) -> Result<String, AllocError> {
    let mut shown = String::from_str(alloc, front)?;
    shown.push_str(text)?;
    shown.push_str(back)?;
    Ok(shown)
}

fn shown_kind(
    rt: &impl Abort,
    alloc: Global,
    names: &Names,
    kind: &TokenKind,
) -> Result<String, AllocError> {
    match kind {
        TokenKind::Newline => String::from_str(alloc, "NL"),
        TokenKind::Identifier(name) => String::from_str(alloc, text_of(rt, names, *name)),
        TokenKind::Constant(name) => quoted(alloc, "const ", text_of(rt, names, *name), ""),
        TokenKind::Integer(number) => format!(in alloc; "int {}", number.plain()),
        TokenKind::InstanceVariable(name) => quoted(alloc, "@", text_of(rt, names, *name), ""),
        TokenKind::ClassVariable(name) => quoted(alloc, "@@", text_of(rt, names, *name), ""),
        TokenKind::Symbol(name) => quoted(alloc, ":", text_of(rt, names, *name), ""),
        TokenKind::Text(text) => quoted(alloc, "\"", text, "\""),
        TokenKind::TextBegin(text) => quoted(alloc, "\"", text, "#{"),
        TokenKind::TextMiddle(text) => quoted(alloc, "}", text, "#{"),
        TokenKind::TextEnd(text) => quoted(alloc, "}", text, "\""),
        TokenKind::Keyword(word) => quoted(alloc, "kw:", word.text(), ""),
        TokenKind::Sign(sign) => String::from_str(alloc, sign.text()),
    }
}

fn shown_tokens(
    rt: &impl Abort,
    alloc: Global,
    names: &Names,
    tokens: &[Token],
) -> Result<String, AllocError> {
    let mut shown = String::new(alloc);
    for token in tokens {
        if !shown.is_empty() {
            shown.push(' ')?;
        }
        shown.push_str(&shown_kind(rt, alloc, names, &token.kind)?)?;
    }
    Ok(shown)
}

// What the lexer makes of a text.
fn lexed(rt: &impl Abort, alloc: Global, text: &[u8]) -> Result<String, AllocError> {
    let mut names = Names::new(alloc)?;
    match lex(alloc, text, &mut names) {
        Ok(tokens) => shown_tokens(rt, alloc, &names, &tokens),
        Err(LexFault::Refused(fault)) => {
            format!(in alloc; "reason {} line {}", fault.reason.number(), fault.line)
        }
        Err(LexFault::Memory) => Err(AllocError),
    }
}

// Asserts that each text is read as is shown beside it.
fn agree(rt: &impl Abort, alloc: Global, rows: &[(&str, &str)]) -> Result<(), AllocError> {
    for (text, shown) in rows {
        let read = lexed(rt, alloc, text.as_bytes())?;
        assert!(rt; read.as_str() == *shown, "{text:?} is read as {read:?}");
    }
    Ok(())
}

// Asserts that each word between the first two texts is read as it is shown between the other two.
fn agree_between(
    rt: &impl Abort,
    alloc: Global,
    words: &[&str],
    text: (&str, &str),
    shown: (&str, &str),
) -> Result<(), AllocError> {
    for word in words {
        let text = quoted(alloc, text.0, word, text.1)?;
        let shown = quoted(alloc, shown.0, word, shown.1)?;
        agree(rt, alloc, &[(text.as_str(), shown.as_str())])?;
    }
    Ok(())
}
