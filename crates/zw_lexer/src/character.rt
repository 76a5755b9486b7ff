//! Kinds of characters, and what stands at the front of some.
ghost use Rattle.std.specs.Prelude.{◌≡◌, ◌≤◌, ℕ, Bool, length};
ghost use Rattle.std.specs.List.{take_while};
ghost use Rattle.zw_def_syntax.specs.Character.{is_blank, is_line_feed, is_name_start, first_is};
ghost use Rattle.zw_def_syntax.specs.Word.{is_mark, is_after_equals};
ghost use Rattle.zw_def_syntax.specs.Number.{is_number_part};
ghost use Rattle.zw_lexer.specs.Character.{Tells};

pub(crate) fn is_blank(c: char) -> bool
    ensures { result ≡ is_blank c }
{
    c == ' ' || c == '\t'
}

pub(crate) fn is_line_feed(c: char) -> bool
    ensures { result ≡ is_line_feed c }
{
    c == '\n'
}

/// Whether a name may begin with the character (UAX 31, XID_Start, and `_`).
pub(crate) fn is_name_start(c: char) -> bool
    ensures { result ≡ is_name_start c }
{
    c == '_' || unicode_ident::is_xid_start(c)
}

pub(crate) fn is_mark(c: char) -> bool
    ensures { result ≡ is_mark c }
{
    c == '?' || c == '!'
}

pub(crate) fn is_after_equals(c: char) -> bool
    ensures { result ≡ is_after_equals c }
{
    c == '=' || c == '>' || c == '~'
}

pub(crate) fn is_number_part(c: char) -> bool
    ensures { result ≡ is_number_part c }
{
    c.is_ascii_digit() || c == '_'
}

pub(crate) fn begins_name(characters: &[char]) -> bool
    ensures { result ≡ first_is is_name_start characters.now }
{
    characters.first().is_some_and(|c| is_name_start(*c))
}

/// How many characters at the front pass a test.
pub(crate) fn front_length<F: Fn(char) -> bool>(characters: &[char], passes: F) -> usize
    requires { F.IsAlwaysCallable passes }
    ensures size { (p : ℕ → Bool) → Tells (F.post passes) p → result ≡ length (take_while p characters.now) }
    ensures within { result ≤ length characters.now }
{
    characters
        .iter()
        .position(|c| !passes(*c))
        .unwrap_or(characters.len())
}
