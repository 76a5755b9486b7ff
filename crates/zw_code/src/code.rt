//! The code of methods that a program defines.
use crate::shared::Shared;
use sqlite_items::Items;
use zw_ast::{Default, Node};
use zw_heap::ModuleId;
use zw_names::Name;

/// The scopes of a place in a program, the innermost first (ISO/IEC 30170, 7.1.3, the class-module list).
pub type Scopes = Shared<Vec<ModuleId>>;

/// A method's parameters and body, with the scopes at its definition (13.3.2).
#[derive(Drop)]
pub struct Code {
    pub required: Items<Name>,
    pub optional: Items<Default<Node>>,
    pub body: Items<Node>,
    pub scopes: Scopes,
}
