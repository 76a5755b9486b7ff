//! What stands at a name of a table.

use zw_heap::Value;
use zw_names::EntryId;

/// What stands at a name of a module's table: a constant's value, or the entry of a key that is loaded when the constant
/// is asked for (Zeitwerk README, "How it works").
#[derive(Clone, Copy, Debug, PartialEq, Eq)]
pub enum Slot {
    Value(Value),
    Entry(EntryId),
}
