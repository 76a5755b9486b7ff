//! The kinds of nodes.
use sqlite_items::{Boxed, Items};
use zw_names::Name;

/// What stands first in the text of an `if` or a loop: the test, or the body that a modifier follows. It changes
/// nothing of what the node does, and tells which variables were known where.
#[derive(Clone, Copy, Debug, PartialEq, Eq)]
pub enum Order {
    TestFirst,
    BodyFirst,
}

/// A part of a text with interpolations (ISO/IEC 30170, 8.7.6.3).
#[derive(Drop)]
pub enum Part<N> {
    Text(String),
    /// The statements between `#{` and `}`.
    Program(Items<N>),
}

/// A rescue clause (11.5.2.5): its paths, the variable that takes the exception, and its body.
#[derive(Drop)]
pub struct Rescue<N> {
    pub paths: Items<N>,
    pub variable: Option<Name>,
    pub body: Items<N>,
}

/// A parameter with its default (13.3.2).
#[derive(Drop)]
pub struct Default<N> {
    pub name: Name,
    pub value: N,
}

/// The name of a method that is defined.
#[derive(Clone, Copy, Debug, PartialEq, Eq)]
pub enum MethodName {
    /// A word, or an operator's sign.
    Named(Name),
    /// `x=`, by the name `x`.
    Setter(Name),
}

/// The place where a class or module stands: the innermost scope (`class N`), `Object` (`class ::N`), or what a node
/// gives (`class e::N`).
#[derive(Drop)]
pub enum Base<N> {
    Innermost,
    Topmost,
    Within(Boxed<N>),
}

/// A node of a program, by its kind. A body is a list of nodes, its statements.
#[derive(Drop)]
pub enum Node {
    Nil,
    True,
    False,
    SelfNode,
    Int(i64),
    Str(String),
    Sym(Name),
    /// A text with interpolations.
    Interp(Items<Part<Node>>),
    Array(Items<Node>),
    /// A variable that is known.
    Local(Name),
    /// A name that may be a variable or a method.
    Ident(Name),
    InstanceVariable(Name),
    ClassVariable(Name),
    /// `N`.
    Const(Name),
    /// `e::N`.
    Scoped(Boxed<Node>, Name),
    /// `::N`.
    TopConst(Name),
    SetLocal(Name, Boxed<Node>),
    SetInstanceVariable(Name, Boxed<Node>),
    SetClassVariable(Name, Boxed<Node>),
    SetConst(Name, Boxed<Node>),
    /// `b::N = e`.
    SetScoped(Boxed<Node>, Name, Boxed<Node>),
    /// `r.x = e`.
    SetAttribute(Boxed<Node>, Name, Boxed<Node>),
    /// A call with a receiver.
    Call(Boxed<Node>, Name, Items<Node>),
    /// A call on `self`.
    SelfCall(Name, Items<Node>),
    /// A call of the next method, with arguments.
    Super(Items<Node>),
    /// A call of the next method, with the parameters' values.
    ZSuper,
    Not(Boxed<Node>),
    And(Boxed<Node>, Boxed<Node>),
    Or(Boxed<Node>, Boxed<Node>),
    /// A test, the body where it holds, and the body where it does not.
    If(Order, Boxed<Node>, Items<Node>, Items<Node>),
    While(Order, Boxed<Node>, Items<Node>),
    Break,
    Next,
    Return(Option<Boxed<Node>>),
    /// `begin .. end` without clauses, and parentheses round none or several statements.
    Seq(Items<Node>),
    /// A body, its rescue clauses, and the bodies after `else` and `ensure`.
    Begin(Items<Node>, Items<Rescue<Node>>, Option<Items<Node>>, Option<Items<Node>>),
    /// A method: its name, the required parameters, those with a default, and the body.
    Def(MethodName, Items<Name>, Items<Default<Node>>, Items<Node>),
    /// A method of `self`.
    SDef(MethodName, Items<Name>, Items<Default<Node>>, Items<Node>),
    /// A class: its place, its name, the superclass, and the body.
    Class(Base<Node>, Name, Option<Boxed<Node>>, Items<Node>),
    Module(Base<Node>, Name, Items<Node>),
}
