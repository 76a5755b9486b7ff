//! One statement at the top of a program.
ghost use Rattle.std.specs.Prelude.{◌≡◌, ◌≤◌, IfOk, length};
ghost use Rattle.zw_def_syntax.specs.Places as places;
ghost use Rattle.zw_def_syntax.specs.Program as spec;
ghost use Rattle.zw_ast.specs.Grown.{grown_seen};
ghost use Rattle.zw_ast.specs.Named.{IsNamed};
ghost use Rattle.zw_ast.specs.Node.{tree_seen};
ghost use Rattle.zw_ast.specs.Program.{statement_names, statement_seen};
ghost use Rattle.zw_lexer.specs.Fault.{Agrees, fault_seen};
ghost use Rattle.zw_parser.specs.Statement.{judged, read_statement, separated};

use zw_ast::{Built, MakeFault, Maker, Statement};
use zw_base::Fault;
use zw_compound::separator_next;
use zw_expr::Cursor;
use zw_grammar::top_statement;
use zw_lexer::{Reason, SyntaxFault};
use zw_places::fault_of;

/// Why tokens are no program.
pub type ParseFault = Fault<SyntaxFault>;

/// Whether all tokens are read.
pub(crate) fn at_end(tokens: &Cursor<'_>) -> bool
    ensures { result ≡ spec.at_end tokens.now.input }
{
    tokens.at(0).is_none()
}

fn line_here(tokens: &Cursor<'_>) -> usize
    ensures { result ≡ spec.line_here tokens.now.input }
{
    match tokens.at(0) {
        Some(token) => token.line,
        None => 0,
    }
}

// A statement of the grammar that begins on this line, with a separator or the end of the text behind it.
fn statement_on<'t>(
    maker: Maker<'t>,
    tokens: &mut Cursor<'t>,
    line: usize,
) -> Result<Built, ParseFault>
    requires same { tokens.old.names ≡ maker.names.now }
    ensures told { Agrees (λ node. (grown_seen maker.entry.names.now node, tokens.new.input)) fault_seen result
        (separated line (spec.top_statement tokens.old.input)) }
    ensures same { tokens.new.names ≡ maker.entry.names.now }
    ensures named { IfOk result (IsNamed maker.entry.names.now) }
{
    let reason = Reason::Malformed;
    match top_statement(maker, tokens) {
        Ok(node) if at_end(tokens) || separator_next(tokens) => Ok(node),
        Err(MakeFault::Memory) => Err(ParseFault::Memory),
        _ => Err(ParseFault::Refused(SyntaxFault { line, reason })),
    }
}

// The statement, unless a node in it is out of place.
fn placed(maker: &Maker<'_>, line: usize, node: Built) -> Result<Statement, ParseFault>
    requires { IsNamed maker.now.names.now node }
    ensures told { Agrees (statement_seen maker.now.names.now) fault_seen result
        (judged line (tree_seen maker.now.names.now node.form)
        (places.fault_of (tree_seen maker.now.names.now node.form))) }
    ensures named { IfOk result (λ s. statement_names s ≤ length maker.now.names.now) }
{
    maker.names.are_distinct();
    match fault_of(maker.alloc, node.form.get())? {
        Some(reason) => Err(ParseFault::Refused(SyntaxFault { line, reason })),
        None => Ok(Statement {
            line,
            node: node.form.into_inner(),
        }),
    }
}

/// A statement, which begins at the next token, with its separator.
pub(crate) fn statement<'t>(
    maker: Maker<'t>,
    tokens: &mut Cursor<'t>,
) -> Result<Statement, ParseFault>
    requires same { tokens.old.names ≡ maker.names.now }
    ensures told { Agrees (λ s. (statement_seen maker.entry.names.now s, tokens.new.input)) fault_seen result
        (read_statement tokens.old.input) }
    ensures same { tokens.new.names ≡ maker.entry.names.now }
    ensures named { IfOk result (λ s. statement_names s ≤ length maker.entry.names.now) }
{
    let line = line_here(tokens);
    let node = statement_on(maker, tokens, line)?;
    placed(&maker, line, node)
}
