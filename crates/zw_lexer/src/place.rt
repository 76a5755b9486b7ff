//! Places in a text, and the texts that an interpolation stands in.
ghost use Rattle.std.specs.Prelude.{◌≡◌, ◌+◌, ◌^◌, ◌<◌};
ghost use Rattle.std.specs.Char.{len_utf8};
ghost use Rattle.zw_def_syntax.specs.Character.{after_character, after_characters, is_after_blank};
ghost use Rattle.zw_lexer.specs.Place.{place_seen, HasRoom};

use crate::character::{is_blank, is_line_feed};

/// A place in a text.
#[derive(Clone, Copy)]
pub(crate) struct Place {
    /// From 1 on.
    pub(crate) line: usize,
    /// How many bytes stand before it.
    pub(crate) byte: usize,
    /// The character before it.
    pub(crate) last: Option<char>,
}

/// A text that an interpolation stands in.
#[derive(Clone, Copy)]
pub(crate) struct Opening {
    /// The line of its quote.
    pub(crate) quote: usize,
    /// The line of the `#{`.
    pub(crate) brace: usize,
}

impl Place {
    /// The place after a character.
    fn after_character(&self, character: char) -> Place
        requires { (self.now.line + 1 < 2 ^ 64) × (self.now.byte + len_utf8 character < 2 ^ 64) }
        ensures { place_seen result ≡ after_character character (place_seen self.now) }
    {
        Place {
            line: if is_line_feed(character) {
                self.line + 1
            } else {
                self.line
            },
            byte: self.byte + character.len_utf8(),
            last: Some(character),
        }
    }

    /// The place after some characters.
    pub(crate) fn after(&self, characters: &[char]) -> Place
        requires { HasRoom self.now characters.now }
        ensures { place_seen result ≡ after_characters characters.now (place_seen self.now) }
    {
        let mut place = *self;
        for character in characters {
            place = place.after_character(*character);
        }
        place
    }

    /// Whether a space or a tab stands directly before it.
    pub(crate) fn is_after_blank(&self) -> bool
        ensures { result ≡ is_after_blank (place_seen self.now) }
    {
        self.last.is_some_and(|character| is_blank(character))
    }
}
