//! The reader of class files.
ghost use Rattle.std.specs.Prelude.{◌≡◌, ◌<◌, ℕ, option_map, map, length, slice_get, IfOk, IfSome, codes, if◌then◌else◌, Some, None};
ghost use Rattle.std.specs.Str.{IsUtf8, bytes_eq};
ghost use Rattle.zw_def.specs.Text.{after_prefix, pieces};
ghost use Rattle.zw_def_thin.specs.ClassFile.{integer_of, unindented, method_of, methods_of, class_of_lines, before_last_line_end, class_file};
ghost use Rattle.zw_def.specs.Names.{OnlyGrows};
ghost use Rattle.zw_thin.specs.ClassFile.{method_seen, methods_seen, class_seen, MethodsNamed, ClassNamed};
ghost use Rattle.zw_thin.specs.Lines.{lines_seen, is_last_end};

use crate::words::{Words, is_integer, trimmed};
use std::alloc::{AllocError, Global};
use zw_names::{Name, Names};

/// A method that answers an integer.
#[derive(Drop)]
pub(crate) struct Method {
    pub(crate) name: Name,
    pub(crate) value: i64,
}

/// A class that a file defines, with its methods in their order.
#[derive(Drop)]
pub(crate) struct ClassFile {
    pub(crate) name: Name,
    pub(crate) methods: Vec<Method>,
}

/// The integer that a word is, if it is a numeral of at most 64 bits with its sign.
pub(crate) fn integer(word: &[u8]) -> Option<i64>
    ensures { result ≡ integer_of word.now }
{
    if !is_integer(word) {
        return None;
    }
    let text = std::str::from_utf8(word).unwrap();
    text.parse::<i64>().ok()
}

fn after<'a>(line: &'a [u8], prefix: &[u8]) -> Option<&'a [u8]>
    ensures { option_map (λ x. x.now) result ≡ after_prefix prefix.now line.now }
{
    line.strip_prefix(prefix)
}

fn method_from(
    words: &Words,
    names: &mut Names,
    head: &[u8],
    value: &[u8],
    last: &[u8],
) -> Result<Option<Method>, AllocError>
    ensures told { IfOk result (λ m. option_map (method_seen names.new) m ≡ method_of head.now value.now last.now) }
    ensures named { IfOk result (λ m. IfSome m (λ m. m.name.0 < length names.new)) }
    ensures grows { OnlyGrows names.old names.new }
{
    let Some(name) = after(head, b"def self.".as_slice()) else {
        return Ok(None);
    };
    let Some(value) = integer(value) else {
        return Ok(None);
    };
    if last != b"end".as_slice() {
        return Ok(None);
    }
    let Some(name) = words.method_name(name) else {
        return Ok(None);
    };
    let name = names.intern(name)?;
    Ok(Some(Method { name, value }))
}

/// The methods, up to the last `end`.
fn methods(
    alloc: Global,
    words: &Words,
    names: &mut Names,
    lines: &[&[u8]],
) -> Result<Option<Vec<Method>>, AllocError>
    ensures told { IfOk result (λ o.
        option_map (λ v. methods_seen names.new v.items) o ≡ methods_of (lines_seen lines.now)) }
    ensures named { IfOk result (λ o. IfSome o (λ v. MethodsNamed names.new v.items)) }
    ensures grows { OnlyGrows names.old names.new }
{
    let mut found = Vec::new(alloc);
    let mut at = 0;
    'methods: while at + 2 < lines.len() {
        match method_from(words, names, lines[at], lines[at + 1], lines[at + 2])? {
            None => return Ok(None),
            Some(method) => found.push(method)?,
        }
        at += 3;
    }
    if is_end(&lines[at..]) {
        Ok(Some(found))
    } else {
        Ok(None)
    }
}

/// Whether the lines are `end` alone.
fn is_end(lines: &[&[u8]]) -> bool
    ensures { result ≡ is_last_end (lines_seen lines.now) }
{
    match lines.split_first() {
        None => false,
        Some((line, rest)) => *line == b"end".as_slice() && rest.is_empty(),
    }
}

/// The lines, each without the blanks before it.
fn lines_of<'a>(alloc: Global, body: &'a [u8]) -> Result<Vec<&'a [u8]>, AllocError>
    ensures { IfOk result (λ v. lines_seen v.items ≡ map unindented (pieces 10 body.now)) }
{
    body.split(|b| *b == b'\n')
        .map(|line| trimmed(line))
        .collect(alloc)
}

fn class_of(
    alloc: Global,
    words: &Words,
    names: &mut Names,
    lines: &[&[u8]],
) -> Result<Option<ClassFile>, AllocError>
    ensures told { IfOk result (λ o. option_map (class_seen names.new) o ≡ class_of_lines (lines_seen lines.now)) }
    ensures named { IfOk result (λ o. IfSome o (ClassNamed names.new)) }
    ensures grows { OnlyGrows names.old names.new }
{
    let Some((first, rest)) = lines.split_first() else {
        return Ok(None);
    };
    let Some(name) = after(first, b"class ".as_slice()) else {
        return Ok(None);
    };
    let Some(name) = words.class_name(name) else {
        return Ok(None);
    };
    let name = names.intern(name)?;
    match methods(alloc, words, names, rest)? {
        None => Ok(None),
        Some(methods) => Ok(Some(ClassFile { name, methods })),
    }
}

fn body_of(text: &[u8]) -> Option<&[u8]>
    ensures { option_map (λ x. x.now) result ≡ before_last_line_end text.now }
{
    text.strip_suffix(b"\n".as_slice())
}

/// The class file that a text is, if it is one. Its names are made; where the text is none, some may be.
pub(crate) fn read(
    alloc: Global,
    words: &Words,
    names: &mut Names,
    text: &[u8],
) -> Result<Option<ClassFile>, AllocError>
    ensures told { IfOk result (λ o. option_map (class_seen names.new) o ≡ class_file text.now) }
    ensures named { IfOk result (λ o. IfSome o (ClassNamed names.new)) }
    ensures grows { OnlyGrows names.old names.new }
{
    match body_of(text) {
        None => Ok(None),
        Some(body) => {
            let lines = lines_of(alloc, body)?;
            class_of(alloc, words, names, &lines)
        }
    }
}
