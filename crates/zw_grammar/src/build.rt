//! The nodes of lines and statements. Section numbers are those of ISO/IEC 30170.
ghost use Rattle.std.specs.Prelude.{◌≡◌, IfOk};
ghost use Rattle.std.specs.Str.{bytes_eq};
ghost use Rattle.zw_def_syntax.specs.Compound.{Reader};
ghost use Rattle.zw_def_syntax.specs.Grammar as spec;
ghost use Rattle.zw_ast.specs.Gives.{Gives};
ghost use Rattle.zw_ast.specs.Grown.{grown_seen};
ghost use Rattle.zw_ast.specs.Named.{IsNamed};
ghost use Rattle.zw_lexer.specs.Keyword.{keyword_text};

use zw_ast::{Built, MakeFault, Maker, Order};
use zw_compound::{only, until};
use zw_lexer::Keyword;

fn is_same(word: Keyword, other: Keyword) -> bool
    ensures { result ≡ bytes_eq (keyword_text word) (keyword_text other) }
{
    word.text() == other.text()
}

/// `and` or `or` between two parts (11.2.3 and 11.2.4).
pub(crate) fn joined(
    maker: &Maker<'_>,
    word: Keyword,
    left: Built,
    right: Built,
) -> Result<Built, MakeFault>
    requires left { IsNamed maker.now.names.now left }
    requires right { IsNamed maker.now.names.now right }
    ensures told { (inner : Reader) → Gives (grown_seen maker.now.names.now) (spec.logic_tree inner (keyword_text word)
        (grown_seen maker.now.names.now left) (grown_seen maker.now.names.now right)) result }
    ensures named { IfOk result (IsNamed maker.now.names.now) }
{
    if is_same(word, Keyword::And) {
        maker.conjunction(left, right)
    } else {
        maker.disjunction(left, right)
    }
}

/// A body with a modifier, and its test (12.3 to 12.6).
#[inline(never)]
pub(crate) fn modified(
    maker: &Maker<'_>,
    word: Keyword,
    body: Built,
    test: Built,
) -> Result<Built, MakeFault>
    requires body { IsNamed maker.now.names.now body }
    requires test { IsNamed maker.now.names.now test }
    ensures told { Gives (grown_seen maker.now.names.now) (spec.modified_tree (keyword_text word)
        (grown_seen maker.now.names.now body) (grown_seen maker.now.names.now test)) result }
    ensures named { IfOk result (IsNamed maker.now.names.now) }
{
    let body = only(maker.alloc, body)?;
    if is_same(word, Keyword::If) {
        maker.choice(Order::BodyFirst, test, body, Vec::new(maker.alloc))
    } else if is_same(word, Keyword::Unless) {
        maker.choice(Order::BodyFirst, test, Vec::new(maker.alloc), body)
    } else if is_same(word, Keyword::While) {
        maker.repetition(Order::BodyFirst, test, body)
    } else {
        until(maker, Order::BodyFirst, test, body)
    }
}
