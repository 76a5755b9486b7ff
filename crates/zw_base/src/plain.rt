//! Plain words.
ghost use Rattle.std.specs.Prelude.{◌≡◌};
ghost use Rattle.std.specs.List.{list_all};
ghost use Rattle.zw_def.specs.Text.{is_digit, is_plain_byte, is_plain_word};

fn is_plain(b: u8) -> bool
    ensures { result ≡ is_plain_byte b }
{
    b.is_ascii_lowercase() || b.is_ascii_digit() || b == b'_'
}

/// Whether all bytes are `a` to `z`, digits or `_`.
pub fn are_plain(bytes: &[u8]) -> bool
    ensures { result ≡ list_all is_plain_byte bytes.now }
{
    bytes.iter().all(|b| is_plain(*b))
}

/// Whether all bytes are digits.
pub fn are_digits(bytes: &[u8]) -> bool
    ensures { result ≡ list_all is_digit bytes.now }
{
    bytes.iter().all(|b| b.is_ascii_digit())
}

/// Whether a word is of plain bytes, and begins with `a` to `z`.
pub fn is_plain_word(word: &[u8]) -> bool
    ensures { result ≡ is_plain_word word.now }
{
    match word.split_first() {
        None => false,
        Some((first, rest)) => first.is_ascii_lowercase() && are_plain(rest),
    }
}
