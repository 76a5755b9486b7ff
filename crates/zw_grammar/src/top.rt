//! Statements at the top of a program.
ghost use Rattle.std.specs.Prelude.{◌≡◌, IfOk};
ghost use Rattle.zw_def_syntax.specs.Program.{top_statement};
ghost use Rattle.zw_ast.specs.Grown.{grown_seen};
ghost use Rattle.zw_ast.specs.Named.{IsNamed};
ghost use Rattle.zw_expr.specs.Reads.{Reads};

use crate::reader::read;
use crate::statement::statement;
use zw_ast::{Built, MakeFault, Maker};
use zw_expr::{Cursor, Grammar};

/// How deep forms may stand in one another. Each either stands in a bracket, of which 250 may be open, or raises the
/// height of a node, which is at most 100, so that this number never decides.
const MAX_DEPTH: usize = 351;

/// Reads a statement (ISO/IEC 30170, 12). Where there is none, or a node would be too high, it is malformed.
#[tactic(auto, unfolding(zw_def_syntax::specs::Program::top_statement))]
pub fn top_statement<'t>(maker: Maker<'t>, tokens: &mut Cursor<'t>) -> Result<Built, MakeFault>
    requires same { tokens.old.names ≡ maker.names.now }
    ensures reads { Reads (grown_seen maker.entry.names.now) top_statement tokens.old.input result tokens.new.input }
    ensures same { tokens.new.names ≡ maker.entry.names.now }
    ensures named { IfOk result (IsNamed maker.entry.names.now) }
{
    let grammar = Grammar {
        maker,
        depth: MAX_DEPTH,
        inner: read,
    };
    statement(&grammar, tokens)
}
