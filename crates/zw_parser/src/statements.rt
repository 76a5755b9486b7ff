//! The statements of a program, in order.
ghost use Rattle.std.specs.Prelude.{◌≡◌, [], IfOk, length};
ghost use Rattle.zw_def_syntax.specs.Program.{parsed_from};
ghost use Rattle.zw_ast.specs.Program.{AreNamedStatements, statements_seen};
ghost use Rattle.zw_lexer.specs.Fault.{Agrees, fault_seen};

use crate::statement::{ParseFault, at_end, statement};
use zw_ast::{Maker, Statement};
use zw_compound::skip_separators;
use zw_expr::Cursor;

/// All statements from here on.
pub(crate) fn statements<'t>(
    maker: Maker<'t>,
    tokens: &mut Cursor<'t>,
) -> Result<Vec<Statement>, ParseFault>
    requires same { tokens.old.names ≡ maker.names.now }
    ensures told { Agrees (λ all. statements_seen maker.entry.names.now all.items) fault_seen result
        (parsed_from (length tokens.old.input.rest) [] tokens.old.input) }
    ensures named { IfOk result (λ all. AreNamedStatements maker.entry.names.now all.items) }
{
    let mut found = Vec::new(maker.alloc);
    'turn: for _turn in 0..tokens.left() {
        skip_separators(tokens);
        if at_end(tokens) {
            return Ok(found);
        }
        found.push(statement(maker, tokens)?)?;
    }
    Ok(found)
}
