//! The words of a text, as the keys of a table.
ghost use Rattle.std.specs.Prelude.{◌≡◌, ◌<◌, ◌∷◌, ◌↔◌, IsSome, IfSome, IsTrue, length, map};
ghost use Rattle.zw_def.specs.Text.{pieces};
ghost use Rattle.zw_table.specs.Words.{words, rises, tells_keys};
ghost use Rattle.zw_table.specs.Left.{words_left};

use arrayvec::ArrayVec;

/// The first word of a text, and what follows the space after it.
fn first_word<'a>(text: &'a str) -> (&'a str, Option<&'a str>)
    ensures word { pieces 32 text.now ≡ result.0.now ∷ words_left result.1 }
    ensures shorter { IfSome result.1 (λ rest. length rest.now < length text.now) }
{
    match text.split_once(' ') {
        Some((word, rest)) => (word, Some(rest)),
        None => (text, None),
    }
}

/// The words of a text, where it tells the keys of `N` rows.
pub(crate) fn keys_of<const N: usize>(text: &'static str) -> Option<ArrayVec<&'static str, N>>
    ensures told { IsSome result ↔ IsTrue (tells_keys N text.now) }
    ensures keys { IfSome result (λ keys. map (λ k. k.now) keys.items ≡ words text.now) }
{
    let mut keys = ArrayVec::new();
    let mut last = "";
    let mut left = if text.is_empty() { None } else { Some(text) };
    while let Some(rest) = left {
        let (word, after) = first_word(rest);
        if word <= last {
            return None;
        }
        if keys.is_full() {
            return None;
        }
        keys.push(word);
        last = word;
        left = after;
    }
    if keys.is_full() { Some(keys) } else { None }
}
