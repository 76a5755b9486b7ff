//! Whole programs.
ghost use Rattle.std.specs.Prelude.{◌≡◌, IfOk, map};
ghost use Rattle.zw_def.specs.Names.{OnlyGrows, texts_of};
ghost use Rattle.zw_def_syntax.specs.Program.{parsed, program_of};
ghost use Rattle.zw_ast.specs.Named.{AreNames};
ghost use Rattle.zw_ast.specs.Node.{name_seen};
ghost use Rattle.zw_ast.specs.Operator.{AreSpelled};
ghost use Rattle.zw_ast.specs.Program.{IsNamedProgram, program_seen};
ghost use Rattle.zw_lexer.specs.Fault.{Agrees, fault_seen};
ghost use Rattle.zw_lexer.specs.Held.{HoldNames};
ghost use Rattle.zw_lexer.specs.Token.{tokens_seen};
ghost use Rattle.zw_expr.specs.Known.{numbers_of};
ghost use Rattle.zw_expr.specs.Named.{AreNumbers};

use crate::statement::ParseFault;
use crate::statements::statements;
use std::alloc::{AllocError, Global};
use zw_ast::{Maker, Program, spell_operators};
use zw_expr::{Cursor, Known};
use zw_lexer::{Token, lex};
use zw_names::{Name, Names};

// The names, as variables that are known.
fn known_of(alloc: Global, given: &[Name]) -> Result<Known, AllocError>
    ensures { IfOk result (λ known. known ≡ numbers_of given.now) }
{
    let mut known = Known::new(alloc);
    for name in given {
        known.push(*name)?;
    }
    Ok(known)
}

// The program of the tokens, over names among which those of the operators are.
#[tactic(auto, unfolding(zw_def_syntax::specs::Program::parsed))]
fn parse_over<'t>(
    maker: Maker<'t>,
    tokens: &'t [Token],
    known: Known,
) -> Result<Program, ParseFault>
    requires tokens { HoldNames maker.names.now tokens.now }
    requires known { AreNumbers maker.names.now known }
    ensures told { Agrees (program_seen maker.entry.names.now) fault_seen result
        (parsed (texts_of maker.entry.names.now known) (tokens_seen maker.entry.names.now tokens.now)) }
    ensures named { IfOk result (IsNamedProgram maker.entry.names.now) }
{
    let mut cursor = Cursor::new(maker.names, tokens, known);
    let statements = statements(maker, &mut cursor)?;
    Ok(Program { statements })
}

/// The program of tokens, where these variables are known at its start (ISO/IEC 30170, 10.1), or the first fault in
/// them. Operators' names are made; after a refusal they may have been made, too.
#[tactic(auto, using(crate::proofs::HeldLemmas::tokens_held, crate::proofs::HeldLemmas::given_named, crate::proofs::NamedLemmas::given_numbers, crate::proofs::NamedLemmas::given_texts))]
pub fn parse(
    alloc: Global,
    tokens: &[Token],
    given: &[Name],
    names: &mut Names,
) -> Result<Program, ParseFault>
    requires tokens { HoldNames names.old tokens.now }
    requires given { AreNames names.old given.now }
    ensures told { Agrees (program_seen names.new) fault_seen result
        (parsed (map (name_seen names.new) given.now) (tokens_seen names.new tokens.now)) }
    ensures named { IfOk result (IsNamedProgram names.new) }
    ensures grows { OnlyGrows names.old names.new }
{
    let known = known_of(alloc, given)?;
    spell_operators(names)?;
    parse_over(Maker::new(alloc, names), tokens, known)
}

/// The program of a text, where these variables are known at its start, or the first fault in it.
#[tactic(auto, using(crate::proofs::HeldLemmas::given_named), unfolding(zw_def_syntax::specs::Program::program_of))]
pub fn read_program(
    alloc: Global,
    text: &[u8],
    given: &[Name],
    names: &mut Names,
) -> Result<Program, ParseFault>
    requires given { AreNames names.old given.now }
    ensures told { Agrees (program_seen names.new) fault_seen result
        (program_of (map (name_seen names.new) given.now) text.now) }
    ensures named { IfOk result (IsNamedProgram names.new) }
    ensures grows { OnlyGrows names.old names.new }
{
    let tokens = lex(alloc, text, names)?;
    parse(alloc, &tokens, given, names)
}
