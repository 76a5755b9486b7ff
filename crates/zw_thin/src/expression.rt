//! Expressions, and how they end.
ghost use Rattle.std.specs.Prelude.{◌≡◌, option_map, position, IfOk, string_bytes};
ghost use Rattle.zw_def_thin.specs.Evaluation.{expression_of, constant_of, call_of, call_by, is_dot, line_of_ending, not_defined};
ghost use Rattle.zw_thin.specs.Expression.{expression_seen};
ghost use Rattle.zw_thin.specs.Ending.{ending_seen};

use crate::class_file::integer;
use crate::words::Words;
use std::alloc::{AllocError, Global};
use zw_path::Path;

/// An expression: an integer, a class's name, or a call `NAME.x` of a class's method.
#[derive(Clone, Copy, Drop)]
pub(crate) enum Expression<'a> {
    Integer(i64),
    Constant(&'a str),
    /// The class's name, and the method's.
    Call(&'a str, &'a str),
}

/// What an expression gives.
#[derive(Clone, Copy, Drop)]
pub(crate) enum Value<'a> {
    Number(i64),
    /// A class, by its name.
    Class(&'a str),
}

/// How an expression ends.
#[derive(Clone, Copy, Drop)]
pub(crate) enum Ending<'a> {
    Gave(Value<'a>),
    NoConstant(&'a str),
    /// The method's name, and the class's.
    NoMethod(&'a str, &'a str),
    /// The path of the file that was evaluated, and the constant that it is expected to define.
    NotDefined(&'a Path, &'a str),
}

fn dot(expression: &[u8]) -> Option<usize>
    ensures { result ≡ position is_dot expression.now }
{
    expression.iter().position(|b| *b == b'.')
}

fn call_from<'a>(words: &Words, class_name: &'a [u8], method: &'a [u8]) -> Option<Expression<'a>>
    ensures { option_map expression_seen result ≡ call_by class_name.now method.now }
{
    let class_name = words.class_name(class_name)?;
    let method = words.method_name(method)?;
    Some(Expression::Call(class_name, method))
}

fn call<'a>(words: &Words, expression: &'a [u8]) -> Option<Expression<'a>>
    ensures { option_map expression_seen result ≡ call_of expression.now }
{
    let place = dot(expression)?;
    call_from(words, &expression[..place], &expression[place + 1..])
}

fn constant<'a>(words: &Words, expression: &'a [u8]) -> Option<Expression<'a>>
    ensures { option_map expression_seen result ≡ constant_of expression.now }
{
    let name = words.class_name(expression)?;
    Some(Expression::Constant(name))
}

/// The expression that a text is, if it is one.
pub(crate) fn read<'a>(words: &Words, expression: &'a [u8]) -> Option<Expression<'a>>
    ensures { option_map expression_seen result ≡ expression_of expression.now }
{
    if let Some(number) = integer(expression) {
        return Some(Expression::Integer(number));
    }
    match constant(words, expression) {
        Some(constant) => Some(constant),
        None => call(words, expression),
    }
}

fn not_defined(alloc: Global, path: &Path, name: &str) -> Result<String, AllocError>
    ensures { IfOk result (λ line. string_bytes line ≡ line_of_ending (not_defined path.now name.now)) }
{
    let path = path.text(alloc)?;
    format!(in alloc;
        "! Zeitwerk::NameError: expected file {path} to define constant {name}, but didn't"
    )
}

/// The line that tells an end.
pub(crate) fn line_of(alloc: Global, ending: Ending) -> Result<String, AllocError>
    ensures { IfOk result (λ line. string_bytes line ≡ line_of_ending (ending_seen ending.entry)) }
{
    match ending {
        Ending::Gave(Value::Number(number)) => format!(in alloc; "= {number}"),
        Ending::Gave(Value::Class(name)) => format!(in alloc; "= {name}"),
        Ending::NoConstant(name) => format!(in alloc; "! NameError: uninitialized constant {name}"),
        Ending::NoMethod(method, name) => {
            format!(in alloc; "! NoMethodError: undefined method '{method}' for class {name}")
        }
        Ending::NotDefined(path, name) => not_defined(alloc, path, name),
    }
}
