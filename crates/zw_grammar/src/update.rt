//! Assignments that use the value before (ISO/IEC 30170, 11.4.2.3).
ghost use Rattle.std.specs.Prelude.{◌≡◌, ◌-◌, IfOk, codes, length, take, true};
ghost use Rattle.zw_def_syntax.specs.Grammar as spec;
ghost use Rattle.zw_def_syntax.specs.Grammar.{within};
ghost use Rattle.zw_def_syntax.specs.Input.{is_sign_of, kind_is, take_name};
ghost use Rattle.zw_def_syntax.specs.Lexed.{is_among};
ghost use Rattle.zw_def.specs.Text.{is_among as is_one_of};
ghost use Rattle.zw_ast.specs.Gives.{Gives};
ghost use Rattle.zw_ast.specs.Grown.{grown_seen};
ghost use Rattle.zw_ast.specs.Named.{IsName, IsNamed};
ghost use Rattle.zw_ast.specs.Node.{name_seen};
ghost use Rattle.zw_ast.specs.Operator.{operators};
ghost use Rattle.zw_lexer.specs.Punctuation.{sign_text};
ghost use Rattle.zw_expr.specs.Nests.{Nests};
ghost use Rattle.zw_expr.specs.Reads.{Reads};
ghost use Rattle.zw_grammar.specs.Part as part;
ghost use Rattle.zw_grammar.specs.Variable.{name_in, read_of, set_by};

use crate::variable::{Variable, read, set};
use zw_ast::{Built, MakeFault, Maker, Malformed};
use zw_expr::{Cursor, Form, Grammar, Read, Within};
use zw_lexer::{Punctuation, TokenKind};
use zw_names::Name;

// The operator of a sign that calls one.
fn operator_of(sign: Punctuation) -> &'static str
    requires { is_among (codes "+= -= *= /= %=") (sign_text sign) ≡ true }
    ensures told { result.now ≡ take (length (sign_text sign) - 1) (sign_text sign) }
    ensures operator { is_one_of operators result.now ≡ true }
{
    match sign {
        Punctuation::PlusAssign => "+",
        Punctuation::MinusAssign => "-",
        Punctuation::TimesAssign => "*",
        Punctuation::DivideAssign => "/",
        Punctuation::RemainderAssign => "%",
        _ => unreachable!(),
    }
}

// `x op= e` sets `x` to the call of `op` on `x` with `e`.
#[inline(never)]
fn set_to_call(
    maker: &Maker<'_>,
    sign: Punctuation,
    variable: Variable,
    value: Built,
) -> Result<Built, MakeFault>
    requires sign { is_among (codes "+= -= *= /= %=") (sign_text sign) ≡ true }
    requires variable { IsName maker.now.names.now (name_in variable) }
    requires value { IsNamed maker.now.names.now value }
    ensures told { Gives (grown_seen maker.now.names.now) (part.set_to_call (sign_text sign)
        (read_of maker.now.names.now variable) (set_by maker.now.names.now variable)
        (grown_seen maker.now.names.now value)) result }
    ensures named { IfOk result (IsNamed maker.now.names.now) }
{
    let name = maker.operator(operator_of(sign));
    let mut args = Vec::new(maker.alloc);
    args.push(value)?;
    let present = read(maker, variable)?;
    let called = maker.call(present, name, args)?;
    set(maker, variable, called)
}

#[inline(never)]
fn updated_node(
    maker: &Maker<'_>,
    sign: Punctuation,
    variable: Variable,
    value: Built,
) -> Result<Built, MakeFault>
    requires sign { is_among (codes "+= -= *= /= %= ||= &&=") (sign_text sign) ≡ true }
    requires variable { IsName maker.now.names.now (name_in variable) }
    requires value { IsNamed maker.now.names.now value }
    ensures told { Gives (grown_seen maker.now.names.now) (spec.update_tree (sign_text sign)
        (read_of maker.now.names.now variable) (set_by maker.now.names.now variable)
        (grown_seen maker.now.names.now value)) result }
    ensures named { IfOk result (IsNamed maker.now.names.now) }
{
    match sign {
        Punctuation::OrAssign => {
            let whole = set(maker, variable, value)?;
            let present = read(maker, variable)?;
            maker.disjunction(present, whole)
        }
        Punctuation::AndAssign => {
            let whole = set(maker, variable, value)?;
            let present = read(maker, variable)?;
            maker.conjunction(present, whole)
        }
        _ => set_to_call(maker, sign, variable, value),
    }
}

// Passes over any sign.
fn take_any_sign(tokens: &mut Cursor<'_>) -> Result<Punctuation, MakeFault>
    ensures reads { Reads (λ s. sign_text s) (take_name spec.sign_of) tokens.old.input result
        tokens.new.input }
    ensures names { tokens.new.names ≡ tokens.old.names }
{
    match tokens.kind() {
        Some(TokenKind::Sign(sign)) => {
            tokens.take_token();
            Ok(*sign)
        }
        _ => Err(MakeFault::Refused(Malformed)),
    }
}

/// The sign, and a value.
#[tactic(auto, unfolding(zw_def_syntax::specs::Grammar::updated))]
#[inline(never)]
pub(crate) fn updated<
    't,
    F: Fn(Maker<'t>, &mut Cursor<'t>, usize, Within) -> Result<Read, MakeFault>,
>(grammar: &Grammar<'t, F>, tokens: &mut Cursor<'t>, variable: Variable) -> Result<Built, MakeFault>
    requires nests { Nests grammar.now.maker.names.now grammar.now.depth (F.pre grammar.now.inner)
        (F.post grammar.now.inner) }
    requires same { tokens.old.names ≡ grammar.now.maker.names.now }
    requires sign { kind_is (is_sign_of "+= -= *= /= %= ||= &&=") 0 tokens.old.input ≡ true }
    requires variable { IsName grammar.now.maker.names.now (name_in variable) }
    ensures reads { Reads (grown_seen grammar.now.maker.names.now)
        (spec.updated (within grammar.now.depth) (read_of grammar.now.maker.names.now variable) (set_by grammar.now.maker.names.now variable))
        tokens.old.input result tokens.new.input }
    ensures same { tokens.new.names ≡ grammar.now.maker.names.now }
    ensures named { IfOk result (IsNamed grammar.now.maker.names.now) }
{
    let sign = take_any_sign(tokens)?;
    let value = grammar.tree(tokens, Form::Value)?;
    updated_node(&grammar.maker, sign, variable, value)
}

/// A local variable's sign, and a value. The variable is known in it.
#[inline(never)]
pub(crate) fn local_update<
    't,
    F: Fn(Maker<'t>, &mut Cursor<'t>, usize, Within) -> Result<Read, MakeFault>,
>(grammar: &Grammar<'t, F>, tokens: &mut Cursor<'t>, name: Name) -> Result<Built, MakeFault>
    requires nests { Nests grammar.now.maker.names.now grammar.now.depth (F.pre grammar.now.inner)
        (F.post grammar.now.inner) }
    requires same { tokens.old.names ≡ grammar.now.maker.names.now }
    requires sign { kind_is (is_sign_of "+= -= *= /= %= ||= &&=") 0 tokens.old.input ≡ true }
    requires name { IsName grammar.now.maker.names.now name }
    ensures reads { Reads (grown_seen grammar.now.maker.names.now)
        (part.local_update (within grammar.now.depth) (name_seen grammar.now.maker.names.now name))
        tokens.old.input result tokens.new.input }
    ensures same { tokens.new.names ≡ grammar.now.maker.names.now }
    ensures named { IfOk result (IsNamed grammar.now.maker.names.now) }
{
    tokens.learn(name)?;
    updated(grammar, tokens, Variable::Local(name))
}

/// A variable, the sign, and a value.
#[tactic(auto, using(crate::proofs::UpdateLemmas::sign_after_target), unfolding(zw_def_syntax::specs::Grammar::update))]
pub(crate) fn update<
    't,
    F: Fn(Maker<'t>, &mut Cursor<'t>, usize, Within) -> Result<Read, MakeFault>,
>(grammar: &Grammar<'t, F>, tokens: &mut Cursor<'t>) -> Result<Built, MakeFault>
    requires nests { Nests grammar.now.maker.names.now grammar.now.depth (F.pre grammar.now.inner)
        (F.post grammar.now.inner) }
    requires same { tokens.old.names ≡ grammar.now.maker.names.now }
    requires sign { spec.update_next tokens.old.input ≡ true }
    ensures reads { Reads (grown_seen grammar.now.maker.names.now) (spec.update (within grammar.now.depth))
        tokens.old.input result tokens.new.input }
    ensures same { tokens.new.names ≡ grammar.now.maker.names.now }
    ensures named { IfOk result (IsNamed grammar.now.maker.names.now) }
{
    let Some(kind) = tokens.kind() else {
        return Err(MakeFault::Refused(Malformed));
    };
    tokens.take_token();
    match kind {
        TokenKind::Identifier(name) => local_update(grammar, tokens, *name),
        TokenKind::InstanceVariable(name) => updated(grammar, tokens, Variable::Instance(*name)),
        TokenKind::ClassVariable(name) => updated(grammar, tokens, Variable::Class(*name)),
        _ => Err(MakeFault::Refused(Malformed)),
    }
}
