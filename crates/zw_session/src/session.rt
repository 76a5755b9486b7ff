//! Sessions.
use std::alloc::Global;
use std::marker::Model;
use zw_code::{Code, Shared};
use zw_consts::Tables;
use zw_heap::{Heap, Value};
use zw_methods::Methods;
use zw_names::Names;

/// All that programs have made so far. Contracts see what the stores hold, and tell it as a world.
#[derive(Drop)]
pub struct Session {
    pub(crate) alloc: Global,
    pub(crate) names: Names,
    pub(crate) heap: Heap,
    pub(crate) constants: Tables<Value>,
    pub(crate) methods: Methods,
    pub(crate) bodies: Vec<Shared<Code>>,
}

impl Model for Session {
    ghost use Rattle.std.specs.Coded.{codes};
    ghost use Rattle.zw_ast.specs.contracts.node.Node as node;
    ghost use Rattle.zw_session.specs.Stores.{Stores};

    ghost Value = { Stores };

    ghost coded = { Prim.hlevel (codes, node.the_row.coded) };

    ghost use Rattle.zw_session.specs.SessionSeen.{session_seen};
    ghost use Rattle.zw_session.specs.Sound.{IsSound};

    ghost view = { session_seen };

    ghost invariant = { λ s. IsSound (session_seen s) };
}
