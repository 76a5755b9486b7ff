//! Parts of forms, as they are read: what stands beside their nodes. Section numbers are those of ISO/IEC 30170.
ghost use Rattle.std.specs.Prelude.{◌≡◌, List};
ghost use Rattle.zw_def.specs.Text.{Text};
ghost use Rattle.zw_def_syntax.specs.Compound.{is_bare};
ghost use Rattle.zw_ast.specs.Part.{clauses_seen};

use crate::grown::{Built, Grown};
use crate::node::{Base, Node};
use zw_names::Name;

/// The text before an interpolation, and the statements between its `#{` and `}` (8.7.6.3).
#[derive(Drop)]
pub struct Segment {
    pub text: String,
    pub program: Vec<Built>,
}

/// `rescue` with its paths, its variable and its statements (11.5.2.5).
#[derive(Drop)]
pub struct RescueClause {
    pub paths: Vec<Built>,
    pub variable: Option<Name>,
    pub body: Vec<Built>,
}

/// The statements of a body, its rescue clauses, and what stands after `else` and `ensure` (11.5.2.5).
#[derive(Drop)]
pub struct Clauses {
    pub body: Vec<Built>,
    pub rescues: Vec<RescueClause>,
    pub other: Option<Vec<Built>>,
    pub ensured: Option<Vec<Built>>,
}

/// A parameter with its default (13.3.2).
#[derive(Drop)]
pub struct Optional {
    pub name: Name,
    pub value: Built,
}

/// The parameters of a method: those that a call must give, and those with a default (13.3.2).
#[derive(Drop)]
pub struct Params {
    pub required: Vec<Name>,
    pub optional: Vec<Optional>,
}

/// The path of a constant: the place where its last one stands, and the name of that (11.5.4.2).
#[derive(Drop)]
pub struct ConstantPath {
    pub base: Grown<Base<Node>>,
    pub name: Name,
}

impl Clauses {
    /// Whether there is no rescue clause and no `ensure`.
    pub(crate) fn is_bare(&self) -> bool
        ensures { (names : List Text) → result ≡ is_bare (clauses_seen names self.now).rescues
            (clauses_seen names self.now).ensured }
    {
        self.rescues.is_empty() && self.ensured.is_none()
    }
}
