//! Integers.
ghost use Rattle.std.specs.Prelude.{◌≡◌, ◌+◌, ◌*◌, ◌^◌, ◌<◌, ◌≤◌, IsTrue};
ghost use Rattle.std.specs.List.{list_all};
ghost use Rattle.std.specs.Char.{digit_value};
ghost use Rattle.std.specs.Str.Parse.{digits_value};
ghost use Rattle.zw_def.specs.Text.{is_digit};
ghost use Rattle.zw_def_syntax.specs.Number as spec;
ghost use Rattle.zw_lexer.specs.Lexeme.{Reads};
ghost use Rattle.zw_lexer.specs.Number.{within_greatest};

use crate::character::{front_length, is_number_part};
use crate::fault::Reason;
use crate::lexeme::{Lexeme, Piece, PieceFault};
use crate::magnitude::Magnitude;

// The base of the digits.
const RADIX: u64 = 10;

// Whether each `_` stands between digits.
fn is_grouped(part: &[char]) -> bool
    ensures { result ≡ spec.is_grouped part.now }
{
    part.split(|c| *c == '_').all(|piece| !piece.is_empty())
}

fn is_unpadded(part: &[char]) -> bool
    ensures { result ≡ spec.is_unpadded part.now }
{
    match part.split_first() {
        None => true,
        Some((first, rest)) => *first != '0' || rest.is_empty(),
    }
}

// Whether a letter, or a dot and a digit, follows a number.
fn is_going_on(rest: &[char]) -> bool
    ensures { result ≡ spec.is_number_going_on rest.now }
{
    match rest.split_first() {
        None => false,
        Some((first, more)) => {
            unicode_ident::is_xid_start(*first)
                || (*first == '.' && more.first().is_some_and(|c| c.is_ascii_digit()))
        }
    }
}

// The greatest integer of 64 bits with its sign.
#[tactic(auto, unfolding(zw_def_syntax::specs::Number::greatest_integer))]
fn greatest() -> u64
    ensures value { result ≡ spec.greatest_integer }
    ensures large { 10 ≤ result }
    ensures fits { result < 2 ^ 63 }
{
    9223372036854775807
}

// The value of a digit.
fn digit_value(digit: char) -> u64
    requires { IsTrue (is_digit digit) }
    ensures value { result ≡ digit_value digit }
    ensures small { result < 10 }
{
    digit as u64 - '0' as u64
}

// The number with one more digit, where it is none too great.
fn with_digit(value: u64, digit: u64) -> Option<u64>
    requires { digit < 10 }
    ensures { result ≡ within_greatest (value * 10 + digit) }
{
    if value > (greatest() - digit) / RADIX {
        None
    } else {
        Some(value * RADIX + digit)
    }
}

// The value of the digits, where it has 64 bits with its sign.
fn value_of(part: &[char]) -> Option<u64>
    requires { IsTrue (list_all spec.is_number_part part.now) }
    ensures { result ≡ within_greatest (digits_value 10 (spec.digits part.now)) }
{
    let mut value = 0;
    for character in part {
        if *character != '_' {
            value = with_digit(value, digit_value(*character))?;
        }
    }
    Some(value)
}

/// The integer at the front of the characters, which begin with a digit.
pub(crate) fn number(characters: &[char]) -> Result<Piece, PieceFault>
    ensures { Reads result (spec.number_token characters.now) }
{
    let size = front_length(characters, is_number_part);
    let part = &characters[..size];
    if !is_grouped(part) || !is_unpadded(part) || is_going_on(&characters[size..]) {
        return Err(PieceFault::Refused(Reason::OutsideNumber));
    }
    match value_of(part) {
        None => Err(PieceFault::Refused(Reason::OutsideNumber)),
        Some(value) => Ok(Piece::token(Lexeme::Integer(Magnitude::new(value)), size)),
    }
}
