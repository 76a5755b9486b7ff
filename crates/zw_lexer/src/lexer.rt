//! The lexer.
ghost use Rattle.std.specs.Prelude.{◌≡◌, ◌^◌, ◌<◌, IfOk, IfErr, length};
ghost use Rattle.std.specs.Str.{chars, encode_utf8_all};
ghost use Rattle.zw_def_syntax.specs.Lexed.{first_place, lexed, settled_scan, scan_of};
ghost use Rattle.zw_def_syntax.specs.Spans.{InOrder, CoversText};
ghost use Rattle.zw_def.specs.Names.{OnlyGrows};
ghost use Rattle.zw_lexer.specs.Fault.{Faults};
ghost use Rattle.zw_lexer.specs.Held.{HoldNames};
ghost use Rattle.zw_lexer.specs.Place.{place_seen};
ghost use Rattle.zw_lexer.specs.Scan.{scan_seen};
ghost use Rattle.zw_lexer.specs.Token.{tokens_seen, AreTokens};

use crate::fault::{LexFault, Reason, SyntaxFault};
use crate::place::Place;
use crate::scan::{Scan, scan_from};
use crate::settle::{settle, without_ends_before};
use crate::token::Token;
use std::alloc::{AllocError, Global};
use zw_names::Names;

const BYTE_ORDER_MARK: char = '\u{feff}';

const FIRST_LINE: usize = 1;

fn characters_of(alloc: Global, text: &str) -> Result<Vec<char>, AllocError>
    ensures { IfOk result (λ characters. characters.items ≡ chars text.now) }
{
    text.chars().collect(alloc)
}

// The place before the first character, after so many bytes.
fn place_after(byte: usize) -> Place
    ensures { place_seen result ≡ record first_place { byte = byte } }
{
    Place {
        line: FIRST_LINE,
        byte,
        last: None,
    }
}

// The scan of a text, where a byte order mark at its start is passed over.
fn scan_text(alloc: Global, characters: &[char]) -> Result<Scan, AllocError>
    requires { length (encode_utf8_all characters.now) < 2 ^ 63 }
    ensures { IfOk result (λ scan. scan_seen scan ≡ scan_of characters.now) }
{
    if characters.starts_with(&[BYTE_ORDER_MARK]) {
        scan_from(
            alloc,
            place_after(BYTE_ORDER_MARK.len_utf8()),
            &characters[1..],
        )
    } else {
        scan_from(alloc, place_after(0), characters)
    }
}

// The tokens of a scan.
fn settle_scan(alloc: Global, names: &mut Names, scan: Scan) -> Result<Vec<Token>, LexFault>
    ensures told { IfOk result (λ tokens. AreTokens names.new (settled_scan (scan_seen scan)) tokens.items) }
    ensures fault { IfErr result (λ fault. Faults fault (settled_scan (scan_seen scan))) }
    ensures grows { OnlyGrows names.old names.new }
{
    let fault = scan.fault;
    let left = without_ends_before(alloc, scan.tokens)?;
    let tokens = settle(alloc, names, left)?;
    match fault {
        None => Ok(tokens),
        Some(fault) => Err(LexFault::Refused(fault)),
    }
}

fn lex_text(alloc: Global, text: &str, names: &mut Names) -> Result<Vec<Token>, LexFault>
    ensures told { IfOk result (λ tokens. AreTokens names.new (settled_scan (scan_of (chars text.now))) tokens.items) }
    ensures fault { IfErr result (λ fault. Faults fault (settled_scan (scan_of (chars text.now)))) }
    ensures grows { OnlyGrows names.old names.new }
{
    let characters = characters_of(alloc, text)?;
    let scan = scan_text(alloc, &characters)?;
    settle_scan(alloc, names, scan)
}

/// The tokens of a text, with their names in `names` and whatever names are made later (ISO/IEC 30170, 8.7). Where the
/// text is refused, or memory runs out, names may have been made.
#[tactic(auto, unfolding(zw_def_syntax::specs::Lexed::lexed))]
pub fn lex(alloc: Global, text: &[u8], names: &mut Names) -> Result<Vec<Token>, LexFault>
    ensures tokens { IfOk result (λ tokens. AreTokens names.new (lexed text.now) tokens.items) }
    ensures held { IfOk result (λ tokens. HoldNames names.new tokens.items) }
    ensures fault { IfErr result (λ fault. Faults fault (lexed text.now)) }
    ensures in_order { IfOk result (λ tokens. InOrder 0 (tokens_seen names.new tokens.items)) }
    ensures between { IfOk result (λ tokens. CoversText text.now (tokens_seen names.new tokens.items)) }
    ensures grows { OnlyGrows names.old names.new }
{
    match std::str::from_utf8(text) {
        Ok(text) => lex_text(alloc, text, names),
        Err(_) => Err(LexFault::Refused(SyntaxFault {
            line: FIRST_LINE,
            reason: Reason::NotUtf8,
        })),
    }
}
