//! The forms that begin with a keyword. Section numbers are those of ISO/IEC 30170.
ghost use Rattle.std.specs.Prelude.{◌≡◌, IfOk};
ghost use Rattle.zw_def_syntax.specs.Compound as spec;
ghost use Rattle.zw_def_syntax.specs.Grammar.{within};
ghost use Rattle.zw_ast.specs.Grown.{grown_seen};
ghost use Rattle.zw_ast.specs.Named.{IsNamed};
ghost use Rattle.zw_lexer.specs.Keyword.{keyword_text};
ghost use Rattle.zw_expr.specs.Nests.{Nests};
ghost use Rattle.zw_expr.specs.Reads.{Reads};

use crate::choice::{if_rule, unless_rule, until_rule, while_rule};
use crate::class::{class_rule, module_rule};
use crate::clause::begin_rule;
use crate::method::def_rule;
use zw_ast::{Built, MakeFault, Maker, Malformed};
use zw_expr::{Cursor, Grammar, Read, Within};
use zw_lexer::Keyword;

/// The form that begins with a keyword (11.5 and 13).
#[tactic(auto, unfolding(zw_def_syntax::specs::Compound::compound))]
pub fn compound<'t, F: Fn(Maker<'t>, &mut Cursor<'t>, usize, Within) -> Result<Read, MakeFault>>(
    grammar: &Grammar<'t, F>,
    tokens: &mut Cursor<'t>,
    word: Keyword,
) -> Result<Built, MakeFault>
    requires nests { Nests grammar.now.maker.names.now grammar.now.depth (F.pre grammar.now.inner)
        (F.post grammar.now.inner) }
    requires same { tokens.old.names ≡ grammar.now.maker.names.now }
    ensures reads { Reads (grown_seen grammar.now.maker.names.now)
        (spec.compound (within grammar.now.depth) (keyword_text word)) tokens.old.input result
        tokens.new.input }
    ensures same { tokens.new.names ≡ grammar.now.maker.names.now }
    ensures named { IfOk result (IsNamed grammar.now.maker.names.now) }
{
    match word {
        Keyword::If => if_rule(grammar, tokens),
        Keyword::Unless => unless_rule(grammar, tokens),
        Keyword::While => while_rule(grammar, tokens),
        Keyword::Until => until_rule(grammar, tokens),
        Keyword::Begin => begin_rule(grammar, tokens),
        Keyword::Def => def_rule(grammar, tokens),
        Keyword::Class => class_rule(grammar, tokens),
        Keyword::Module => module_rule(grammar, tokens),
        _ => Err(MakeFault::Refused(Malformed)),
    }
}
