//! The parts of a constant path's text.
ghost use Rattle.std.specs.Prelude.{◌≡◌, ◌<◌, ◌∷◌, IfSome, is_some, length};
ghost use Rattle.std.specs.List.{list_all};
ghost use Rattle.std.specs.Str.{chars};
ghost use Rattle.unicode_ident.specs.Ident.{is_xid_continue};
ghost use Rattle.zw_def.specs.Constant.{is_constant};
ghost use Rattle.zw_def.specs.ConstantPath.{parts_of, constant_path_of};
ghost use Rattle.zw_names.specs.Path.{parts_left};

/// The text of the empty path, which is the name of the class of all objects (ISO/IEC 30170, 15.2.1).
pub(crate) const OBJECT: &str = "Object";

fn continues(rest: &str) -> bool
    ensures { result ≡ list_all is_xid_continue (chars rest.now) }
{
    rest.chars().all(|c| unicode_ident::is_xid_continue(c))
}

/// Whether a text is a name of a constant (ISO/IEC 30170, 8.7.3, constant-identifier).
pub fn is_constant(text: &str) -> bool
    ensures { result ≡ is_constant text.now }
{
    let mut chars = text.chars();
    match chars.next() {
        Some('A'..='Z') => continues(chars.as_str()),
        _ => false,
    }
}

/// The first part of a text between the places of `::`, and what follows it.
pub(crate) fn first_part<'a>(text: &'a str) -> (&'a str, Option<&'a str>)
    ensures part { parts_of text.now ≡ result.0.now ∷ parts_left result.1 }
    ensures shorter { IfSome result.1 (λ rest. length rest.now < length text.now) }
{
    match text.split_once("::") {
        Some((part, rest)) => (part, Some(rest)),
        None => (text, None),
    }
}

/// Whether each part of a text is a constant's name.
pub(crate) fn are_constants(text: &str) -> bool
    ensures { result ≡ list_all is_constant (parts_of text.now) }
{
    let mut left = Some(text);
    while let Some(rest) = left {
        let (part, after) = first_part(rest);
        if !is_constant(part) {
            return false;
        }
        left = after;
    }
    true
}

/// Whether a text tells a constant path.
pub fn is_cpath(text: &str) -> bool
    ensures { result ≡ is_some (constant_path_of text.now) }
{
    text == OBJECT || are_constants(text)
}
