//! Nodes with their heights.
use crate::node::Node;
use sqlite_items::Boxed;
use thiserror::Error;
use zw_base::Fault;

/// A part of a program, and how many nodes stand in one another in it at most.
#[derive(Drop)]
pub struct Grown<T> {
    pub form: T,
    pub height: u8,
}

/// A node with its height. It is held by a box from the start, so that what hands it on moves a few words only.
pub type Built = Grown<Boxed<Node>>;

/// No node may be higher.
pub(crate) const MAX_HEIGHT: u8 = 100;

/// The text is not in the grammar here, or nodes stand too deep in one another.
#[derive(Clone, Copy, Debug, PartialEq, Eq, Error)]
#[error("malformed or nested too deep")]
pub struct Malformed;

/// Why no node was made.
pub type MakeFault = Fault<Malformed>;
