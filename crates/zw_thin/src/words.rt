//! The words of class files and of expressions.
ghost use Rattle.std.specs.Prelude.{◌≡◌, ◌&&◌, ◌==◌, not, if◌then◌else◌, Some, None, option_map};
ghost use Rattle.std.specs.Str.{bytes_eq};
ghost use Rattle.std.specs.List.{list_all, list_any};
ghost use Rattle.std.specs.Map.{keys_of};
ghost use Rattle.zw_def_thin.specs.ClassFile.{is_blank, is_class_byte, is_class_word, is_class_name, is_method_name, is_numeral, unindented, is_core, core_names, reserved_method_names};
ghost use Rattle.zw_def.specs.Text.{is_digit, pieces};

use std::marker::Model;
use zw_base::{are_digits, is_plain_word};
use zw_table::{Table, table};

fn is_class_part(b: u8) -> bool
    ensures { result ≡ is_class_byte b }
{
    b.is_ascii_uppercase() || b.is_ascii_lowercase() || b.is_ascii_digit() || b == b'_'
}

fn are_class_parts(bytes: &[u8]) -> bool
    ensures { result ≡ list_all is_class_byte bytes.now }
{
    bytes.iter().all(|b| is_class_part(*b))
}

fn is_class_form(word: &[u8]) -> bool
    ensures { result ≡ is_class_word word.now }
{
    match word.split_first() {
        None => false,
        Some((first, rest)) => first.is_ascii_uppercase() && are_class_parts(rest),
    }
}

/// The words that are the names of no class or of no method that a file may define.
#[derive(Drop)]
pub(crate) struct Words {
    core: Table<(), 26>,
    methods: Table<(), 54>,
}

impl Model for Words {
    ghost use Rattle.std.specs.Prelude.{◌≡◌};
    ghost use Rattle.std.specs.Map.{keys_of};
    ghost use Rattle.zw_def.specs.Text.{pieces};
    ghost use Rattle.zw_def_thin.specs.ClassFile.{core_names, reserved_method_names};

    ghost Value = { Unit {0} };

    ghost view = { λ _. tt };

    ghost invariant = { λ s.
        (keys_of s.core ≡ pieces 32 core_names) × (keys_of s.methods ≡ pieces 32 reserved_method_names) };
}

/// Core classes and modules.
#[tactic(auto, unfolding(zw_def_thin::specs::ClassFile::core_names))]
fn core_names() -> Table<(), 26>
    ensures { keys_of result ≡ pieces 32 core_names }
{
    let names = table!(
        "ArgumentError" => (),
        "Array" => (),
        "Class" => (),
        "Exception" => (),
        "FalseClass" => (),
        "FrozenError" => (),
        "IndexError" => (),
        "Integer" => (),
        "Kernel" => (),
        "LoadError" => (),
        "Module" => (),
        "NameError" => (),
        "NilClass" => (),
        "NoMethodError" => (),
        "Object" => (),
        "RangeError" => (),
        "RuntimeError" => (),
        "ScriptError" => (),
        "StandardError" => (),
        "String" => (),
        "Symbol" => (),
        "SyntaxError" => (),
        "TrueClass" => (),
        "TypeError" => (),
        "Zeitwerk" => (),
        "ZeroDivisionError" => (),
    );
    names.unwrap()
}

/// Keywords, words outside the profile, and methods that every class has.
#[tactic(auto, unfolding(zw_def_thin::specs::ClassFile::reserved_method_names))]
fn reserved_method_names() -> Table<(), 54>
    ensures { keys_of result ≡ pieces 32 reserved_method_names }
{
    let names = table!(
        "alias" => (),
        "ancestors" => (),
        "and" => (),
        "attr_accessor" => (),
        "attr_reader" => (),
        "attr_writer" => (),
        "begin" => (),
        "break" => (),
        "case" => (),
        "class" => (),
        "const_get" => (),
        "def" => (),
        "do" => (),
        "else" => (),
        "elsif" => (),
        "end" => (),
        "ensure" => (),
        "extend" => (),
        "false" => (),
        "for" => (),
        "freeze" => (),
        "if" => (),
        "in" => (),
        "include" => (),
        "initialize" => (),
        "inspect" => (),
        "module" => (),
        "name" => (),
        "new" => (),
        "next" => (),
        "nil" => (),
        "not" => (),
        "or" => (),
        "private" => (),
        "private_class_method" => (),
        "public" => (),
        "puts" => (),
        "raise" => (),
        "redo" => (),
        "rescue" => (),
        "retry" => (),
        "return" => (),
        "self" => (),
        "super" => (),
        "superclass" => (),
        "then" => (),
        "to_s" => (),
        "true" => (),
        "undef" => (),
        "unless" => (),
        "until" => (),
        "when" => (),
        "while" => (),
        "yield" => (),
    );
    names.unwrap()
}

impl Words {
    /// Both tables.
    pub(crate) fn new() -> Words {
        Words {
            core: core_names(),
            methods: reserved_method_names(),
        }
    }

    /// Whether a word is the name of a core class or module.
    pub(crate) fn is_core(&self, word: &str) -> bool
        ensures { result ≡ is_core word.now }
    {
        self.core.contains_key(word)
    }

    fn is_reserved_method(&self, word: &str) -> bool
        ensures { result ≡ list_any (bytes_eq word.now) (pieces 32 reserved_method_names) }
    {
        self.methods.contains_key(word)
    }

    /// The text of a word that is the name of a class that a file may define.
    pub(crate) fn class_name<'a>(&self, word: &'a [u8]) -> Option<&'a str>
        ensures { option_map (λ text. text.now) result ≡ (if is_class_name word.now then Some word.now else None) }
    {
        if !is_class_form(word) {
            return None;
        }
        let text = std::str::from_utf8(word).unwrap();
        if self.is_core(text) || text == "BEGIN" || text == "END" {
            return None;
        }
        Some(text)
    }

    /// The text of a word that is the name of a method that a file may define.
    pub(crate) fn method_name<'a>(&self, word: &'a [u8]) -> Option<&'a str>
        ensures { option_map (λ text. text.now) result ≡ (if is_method_name word.now then Some word.now else None) }
    {
        if !is_plain_word(word) {
            return None;
        }
        let text = std::str::from_utf8(word).unwrap();
        if self.is_reserved_method(text) {
            return None;
        }
        Some(text)
    }
}

fn is_many_digits(first: u8, rest: &[u8]) -> bool
    ensures { result ≡ (is_digit first && not (first == 48) && list_all is_digit rest.now) }
{
    first.is_ascii_digit() && first != b'0' && are_digits(rest)
}

/// Whether a word is an integer without a sign, a leading zero or `_`.
pub(crate) fn is_integer(word: &[u8]) -> bool
    ensures { result ≡ is_numeral word.now }
{
    match word.split_first() {
        None => false,
        Some((first, rest)) => {
            if rest.is_empty() {
                first.is_ascii_digit()
            } else {
                is_many_digits(*first, rest)
            }
        }
    }
}

/// A line without the blanks before it.
pub(crate) fn trimmed(line: &[u8]) -> &[u8]
    ensures { result.now ≡ unindented line.now }
{
    let mut rest = line;
    'blanks: while let Some((b' ' | b'\t', more)) = rest.split_first() {
        rest = more;
    }
    rest
}
