//! Methods (ISO/IEC 30170, 13.3.1 and 13.4.3).
ghost use Rattle.std.specs.Prelude.{◌≡◌, ◌≤◌, ◌<◌, ◌+◌, IfOk, codes, length};
ghost use Rattle.zw_def_syntax.specs.Compound as spec;
ghost use Rattle.zw_def_syntax.specs.Grammar.{within};
ghost use Rattle.zw_def_syntax.specs.Input.{apart, is_sign_of, kind_is, take_name, token_at};
ghost use Rattle.zw_def_syntax.specs.Lexed.{is_among};
ghost use Rattle.zw_def.specs.Names.{texts_of};
ghost use Rattle.zw_ast.specs.Grown.{grown_seen};
ghost use Rattle.zw_ast.specs.Named.{IsName, IsNamed, after_method};
ghost use Rattle.zw_ast.specs.Node.{method_seen, name_seen};
ghost use Rattle.zw_ast.specs.Part.{clauses_names, clauses_seen, params_names, params_seen};
ghost use Rattle.zw_lexer.specs.Punctuation.{sign_text};
ghost use Rattle.zw_expr.specs.Nests.{Nests};
ghost use Rattle.zw_expr.specs.Reads.{Reads};
ghost use Rattle.zw_expr.specs.Named.{AreNumbers};
ghost use Rattle.zw_compound.specs.Method.{method_names, method_parts_seen};
ghost use Rattle.zw_compound.specs.Part as part;

use crate::clause::clauses;
use crate::known::params_known;
use crate::param::optional_params;
use crate::separator::skip_separators;
use zw_ast::{Built, Clauses, MakeFault, Maker, Malformed, MethodName, Params};
use zw_expr::{Cursor, Grammar, Known, Read, Within};
use zw_lexer::{Keyword, Punctuation, TokenKind};
use zw_names::Name;

/// The parameters and the body of a method.
#[derive(Drop)]
pub(crate) struct Method {
    pub(crate) params: Params,
    pub(crate) clauses: Clauses,
}

// Whether nothing stands between a token and the next.
fn adjoins_next(tokens: &Cursor<'_>, place: usize) -> bool
    requires { place < 8 }
    ensures { result ≡ spec.adjoins (token_at place tokens.now.input)
        (token_at (place + 1) tokens.now.input) }
{
    match (tokens.at(place), tokens.at(place + 1)) {
        (Some(first), Some(second)) => first.end == second.start,
        _ => false,
    }
}

// Whether a name, `=` and `(` follow with nothing between them.
fn setter_next(tokens: &Cursor<'_>) -> bool
    ensures { result ≡ spec.setter_next tokens.now.input }
{
    tokens.sign_at(1, Punctuation::Assign)
        && tokens.sign_at(2, Punctuation::OpenParenthesis)
        && adjoins_next(tokens, 0)
        && adjoins_next(tokens, 1)
}

/// A name that is a word, or one of a setter.
#[tactic(auto, unfolding(zw_def_syntax::specs::Compound::word_method))]
#[inline(never)]
pub(crate) fn word_method<'t>(
    maker: &Maker<'t>,
    tokens: &mut Cursor<'t>,
) -> Result<MethodName, MakeFault>
    requires same { tokens.old.names ≡ maker.now.names.now }
    ensures reads { Reads (method_seen maker.now.names.now) (spec.word_method) tokens.old.input result
        tokens.new.input }
    ensures same { tokens.new.names ≡ maker.now.names.now }
    ensures named { IfOk result (λ m. after_method m ≤ length maker.now.names.now) }
{
    let is_setter = setter_next(tokens);
    let name = tokens.take_word()?;
    if is_setter {
        tokens.take_token();
        Ok(MethodName::Setter(name))
    } else {
        Ok(MethodName::Named(name))
    }
}

// A sign that names a method.
fn is_operator(sign: Punctuation) -> bool
    ensures { result ≡ is_among (codes spec.operators) (sign_text sign) }
{
    matches!(
        sign,
        Punctuation::EqualEqual
            | Punctuation::Less
            | Punctuation::LessEqual
            | Punctuation::Greater
            | Punctuation::GreaterEqual
            | Punctuation::Compare
            | Punctuation::Plus
            | Punctuation::Minus
            | Punctuation::Times
            | Punctuation::Divide
            | Punctuation::Remainder
    )
}

fn operator_next(tokens: &Cursor<'_>) -> bool
    ensures { result ≡ kind_is (is_sign_of spec.operators) 0 tokens.now.input }
{
    match tokens.kind() {
        Some(TokenKind::Sign(sign)) => is_operator(*sign),
        _ => false,
    }
}

/// Passes over a sign that names a method.
#[tactic(auto, using(crate::proofs::OperatorLemmas::is_spelled))]
pub(crate) fn take_operator<'t>(
    maker: &Maker<'t>,
    tokens: &mut Cursor<'t>,
) -> Result<Name, MakeFault>
    requires same { tokens.old.names ≡ maker.now.names.now }
    ensures reads { Reads (name_seen maker.now.names.now) (take_name spec.operator_of) tokens.old.input
        result tokens.new.input }
    ensures same { tokens.new.names ≡ maker.now.names.now }
    ensures named { IfOk result (IsName maker.now.names.now) }
{
    match tokens.kind() {
        Some(TokenKind::Sign(sign)) if is_operator(*sign) => {
            tokens.take_token();
            Ok(maker.operator(sign.text()))
        }
        _ => Err(MakeFault::Refused(Malformed)),
    }
}

/// `[]` as a name.
#[inline(never)]
pub(crate) fn index_method<'t>(
    maker: &Maker<'t>,
    tokens: &mut Cursor<'t>,
) -> Result<Name, MakeFault>
    requires same { tokens.old.names ≡ maker.now.names.now }
    ensures reads { Reads (name_seen maker.now.names.now) (part.index_method) tokens.old.input result
        tokens.new.input }
    ensures same { tokens.new.names ≡ maker.now.names.now }
    ensures named { IfOk result (IsName maker.now.names.now) }
{
    tokens.open_bracket()?;
    tokens.close_sign(Punctuation::CloseBracket)?;
    Ok(maker.operator("[]"))
}

/// The name of a method.
#[tactic(auto, unfolding(zw_def_syntax::specs::Compound::method_name))]
#[inline(never)]
pub(crate) fn method_name<'t>(
    maker: &Maker<'t>,
    tokens: &mut Cursor<'t>,
) -> Result<MethodName, MakeFault>
    requires same { tokens.old.names ≡ maker.now.names.now }
    ensures reads { Reads (method_seen maker.now.names.now) (spec.method_name) tokens.old.input result
        tokens.new.input }
    ensures same { tokens.new.names ≡ maker.now.names.now }
    ensures named { IfOk result (λ m. after_method m ≤ length maker.now.names.now) }
{
    if tokens.sign_next(Punctuation::OpenBracket) {
        Ok(MethodName::Named(index_method(maker, tokens)?))
    } else if operator_next(tokens) {
        Ok(MethodName::Named(take_operator(maker, tokens)?))
    } else {
        word_method(maker, tokens)
    }
}

/// `self.` before a name, where it is there.
#[tactic(auto, unfolding(zw_def_syntax::specs::Compound::on_self))]
#[inline(never)]
pub(crate) fn on_self<
    't,
    F: Fn(Maker<'t>, &mut Cursor<'t>, usize, Within) -> Result<Read, MakeFault>,
>(grammar: &Grammar<'t, F>, tokens: &mut Cursor<'t>) -> Result<bool, MakeFault>
    requires nests { Nests grammar.now.maker.names.now grammar.now.depth (F.pre grammar.now.inner)
        (F.post grammar.now.inner) }
    requires same { tokens.old.names ≡ grammar.now.maker.names.now }
    ensures reads { Reads (λ x. x) (spec.on_self (within grammar.now.depth)) tokens.old.input result
        tokens.new.input }
    ensures same { tokens.new.names ≡ grammar.now.maker.names.now }
{
    if !tokens.keyword_next(Keyword::SelfWord) {
        return Ok(false);
    }
    tokens.take_token();
    tokens.take_sign(Punctuation::Dot)?;
    Ok(true)
}

/// Parameters and a body. In it the parameters alone are known at its start.
#[tactic(auto, unfolding(zw_def_syntax::specs::Compound::method))]
#[inline(never)]
pub(crate) fn params_and_body<
    't,
    F: Fn(Maker<'t>, &mut Cursor<'t>, usize, Within) -> Result<Read, MakeFault>,
>(grammar: &Grammar<'t, F>, tokens: &mut Cursor<'t>) -> Result<Method, MakeFault>
    requires nests { Nests grammar.now.maker.names.now grammar.now.depth (F.pre grammar.now.inner)
        (F.post grammar.now.inner) }
    requires same { tokens.old.names ≡ grammar.now.maker.names.now }
    ensures reads { Reads (λ m. method_parts_seen grammar.now.maker.names.now m)
        (spec.method (within grammar.now.depth)) tokens.old.input result tokens.new.input }
    ensures same { tokens.new.names ≡ grammar.now.maker.names.now }
    ensures named { IfOk result (λ m. method_names m ≤ length grammar.now.maker.names.now) }
{
    let params = optional_params(grammar, tokens)?;
    let known = params_known(&grammar.maker, &params)?;
    tokens.replace_known(known);
    skip_separators(tokens);
    let clauses = clauses(grammar, tokens)?;
    Ok(Method { params, clauses })
}

/// Parameters and a body, outside which nothing changes.
#[tactic(auto, unfolding(zw_def_syntax::specs::Input::apart))]
#[inline(never)]
pub(crate) fn method_apart<
    't,
    F: Fn(Maker<'t>, &mut Cursor<'t>, usize, Within) -> Result<Read, MakeFault>,
>(grammar: &Grammar<'t, F>, tokens: &mut Cursor<'t>) -> Result<Method, MakeFault>
    requires nests { Nests grammar.now.maker.names.now grammar.now.depth (F.pre grammar.now.inner)
        (F.post grammar.now.inner) }
    requires same { tokens.old.names ≡ grammar.now.maker.names.now }
    ensures reads { Reads (λ m. method_parts_seen grammar.now.maker.names.now m)
        (apart (spec.method (within grammar.now.depth))) tokens.old.input result tokens.new.input }
    ensures same { tokens.new.names ≡ grammar.now.maker.names.now }
    ensures named { IfOk result (λ m. method_names m ≤ length grammar.now.maker.names.now) }
{
    let outside = tokens.replace_known(Known::new(grammar.maker.alloc));
    let method = params_and_body(grammar, tokens)?;
    tokens.replace_known(outside);
    Ok(method)
}

/// `def` (13.3.1 and 13.4.3).
#[tactic(auto, unfolding(zw_def_syntax::specs::Compound::def_rule))]
#[inline(never)]
pub(crate) fn def_rule<
    't,
    F: Fn(Maker<'t>, &mut Cursor<'t>, usize, Within) -> Result<Read, MakeFault>,
>(grammar: &Grammar<'t, F>, tokens: &mut Cursor<'t>) -> Result<Built, MakeFault>
    requires nests { Nests grammar.now.maker.names.now grammar.now.depth (F.pre grammar.now.inner)
        (F.post grammar.now.inner) }
    requires same { tokens.old.names ≡ grammar.now.maker.names.now }
    ensures reads { Reads (grown_seen grammar.now.maker.names.now)
        (spec.def_rule (within grammar.now.depth)) tokens.old.input result tokens.new.input }
    ensures same { tokens.new.names ≡ grammar.now.maker.names.now }
    ensures named { IfOk result (IsNamed grammar.now.maker.names.now) }
{
    tokens.take_token();
    let own = on_self(grammar, tokens)?;
    let name = method_name(&grammar.maker, tokens)?;
    let method = method_apart(grammar, tokens)?;
    tokens.take_keyword(Keyword::End)?;
    grammar
        .maker
        .method(own, name, method.params, method.clauses)
}
