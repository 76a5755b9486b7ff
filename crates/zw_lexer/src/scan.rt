//! The tokens of a text before its words are told apart.
ghost use Rattle.std.specs.Prelude.{◌≡◌, ◌≤◌, [], IfOk, OnOk, Result, Err, List, map, option_map, length, take, drop};
ghost use Rattle.zw_def_syntax.specs.Character.{after_characters};
ghost use Rattle.zw_def_syntax.specs.Scan as spec;
ghost use Rattle.zw_lexer.specs.Fault.{fault_seen};
ghost use Rattle.zw_lexer.specs.Lexeme.{Locates, lexeme_seen};
ghost use Rattle.zw_lexer.specs.Place.{place_seen, nest_seen, HasRoom};
ghost use Rattle.zw_lexer.specs.Scan.{raw_seen, scan_seen, after_read, after_piece, with_brace, EndsAs};
ghost use Rattle.zw_def_syntax.specs.Piece.{Piece as DefinedPiece};
ghost use Rattle.zw_def_syntax.specs.Token.{Fault};

use crate::character::is_blank;
use crate::fault::{LexFault, Reason, SyntaxFault};
use crate::lexeme::{Lexeme, Piece};
use crate::piece::piece;
use crate::place::{Opening, Place};
use std::alloc::{AllocError, Global};

/// Where a token stands.
#[derive(Clone, Copy)]
pub(crate) struct Span {
    pub(crate) line: usize,
    pub(crate) start: usize,
    pub(crate) end: usize,
    pub(crate) blank_before: bool,
    pub(crate) blank_after: bool,
}

/// A token before its word is told apart.
#[derive(Drop)]
pub(crate) struct Raw {
    pub(crate) lexeme: Lexeme,
    pub(crate) span: Span,
}

/// The tokens up to the first fault, and that fault, if there is one.
#[derive(Drop)]
pub(crate) struct Scan {
    pub(crate) tokens: Vec<Raw>,
    pub(crate) fault: Option<SyntaxFault>,
}

// What was read so far: the tokens, the texts that are open, and the place that was reached.
#[derive(Drop)]
struct Reader {
    tokens: Vec<Raw>,
    nest: Vec<Opening>,
    place: Place,
}

// The token from one place to another, before these characters.
fn raw_between(lexeme: Lexeme, first: &Place, last: &Place, rest: &[char]) -> Raw
    ensures { raw_seen result
        ≡ spec.token_between (lexeme_seen lexeme) (place_seen first.now) (place_seen last.now) rest.now }
{
    Raw {
        lexeme,
        span: Span {
            line: first.line,
            start: first.byte,
            end: last.byte,
            blank_before: first.is_after_blank(),
            blank_after: rest.first().is_some_and(|c| is_blank(*c)),
        },
    }
}

// The `#{` of the innermost text that is open stands on this line.
fn set_brace(nest: &mut Vec<Opening>, brace: usize) -> Result<(), AllocError>
    ensures { OnOk result (nest_seen nest.new.items ≡ with_brace brace (nest_seen nest.old.items)) }
{
    if let Some(opening) = nest.pop() {
        nest.push(Opening {
            quote: opening.quote,
            brace,
        })?;
    }
    Ok(())
}

// Opens and closes texts by a token that begins on the first line and ends on the second.
fn open_after(
    nest: &mut Vec<Opening>,
    lexeme: &Lexeme,
    first: usize,
    last: usize,
) -> Result<(), AllocError>
    ensures { OnOk result (nest_seen nest.new.items
        ≡ spec.open_after (lexeme_seen lexeme.now) first last (nest_seen nest.old.items)) }
{
    match lexeme {
        Lexeme::TextBegin(_) => {
            nest.push(Opening {
                quote: first,
                brace: last,
            })?;
            Ok(())
        }
        Lexeme::TextMiddle(_) => set_brace(nest, last),
        Lexeme::TextEnd(_) => {
            nest.pop();
            Ok(())
        }
        _ => Ok(()),
    }
}

// An interpolation that is open at the end is not ended.
fn fault_at_end(nest: &[Opening]) -> Option<SyntaxFault>
    ensures { option_map fault_seen result ≡ (spec.at_end (nest_seen nest.now)).fault }
{
    let opening = nest.last()?;
    Some(SyntaxFault {
        line: opening.brace,
        reason: Reason::UnendedInterpolation,
    })
}

impl Reader {
    // Takes a piece that these characters begin with.
    fn take(&mut self, piece: Piece, characters: &[char]) -> Result<(), AllocError>
        requires within { piece.size ≤ length characters.now }
        requires room { HasRoom self.old.place characters.now }
        ensures place { OnOk result (place_seen self.new.place
            ≡ after_characters (take piece.size characters.now) (place_seen self.old.place)) }
        ensures tokens { OnOk result ((more : List spec.Opening → spec.Scanned) →
            after_read self.new more ≡ after_piece self.old self.new piece (drop piece.size characters.now) more) }
    {
        let first = self.place;
        let (taken, rest) = characters.split_at(piece.size);
        let last = first.after(taken);
        self.place = last;
        if let Some(lexeme) = piece.lexeme {
            open_after(&mut self.nest, &lexeme, first.line, last.line)?;
            self.tokens.push(raw_between(lexeme, &first, &last, rest))?;
        }
        Ok(())
    }
}

// The scan that a fault ends.
fn ended(tokens: Vec<Raw>, fault: LexFault) -> Result<Scan, AllocError>
    ensures { IfOk result (λ s. (reading : Result DefinedPiece Fault) →
        Locates (Err fault) reading → EndsAs (map raw_seen tokens.items) reading (scan_seen s)) }
{
    match fault {
        LexFault::Memory => Err(AllocError),
        LexFault::Refused(fault) => Ok(Scan {
            tokens,
            fault: Some(fault),
        }),
    }
}

// What follows some of the characters.
fn after(characters: &[char], at: usize) -> &[char]
    requires { at ≤ length characters.now }
    ensures { result.now ≡ drop at characters.now }
{
    &characters[at..]
}

/// The tokens of characters from a place on, up to the first fault.
pub(crate) fn scan_from(
    alloc: Global,
    first: Place,
    characters: &[char],
) -> Result<Scan, AllocError>
    requires { HasRoom first characters.now }
    ensures { IfOk result (λ s. scan_seen s ≡ spec.scanned 0 [] (place_seen first) characters.now) }
{
    let mut reader = Reader {
        tokens: Vec::new(alloc),
        nest: Vec::new(alloc),
        place: first,
    };
    let mut at = 0;
    'pieces: while at < characters.len() {
        let rest = after(characters, at);
        match piece(alloc, &reader.nest, &reader.place, rest) {
            Err(fault) => return ended(reader.tokens, fault),
            Ok(piece) => {
                at += piece.size;
                reader.take(piece, rest)?;
            }
        }
    }
    Ok(Scan {
        fault: fault_at_end(&reader.nest),
        tokens: reader.tokens,
    })
}
