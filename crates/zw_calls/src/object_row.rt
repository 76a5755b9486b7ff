//! The primitive methods of Object.
ghost use Rattle.std.specs.Prelude.{◌≡◌, option_map};
ghost use Rattle.std.specs.List.{find};
ghost use Rattle.zw_def_world.specs.Primitive.{object_rows};
ghost use Rattle.zw_calls.specs.Named.{is_named};
ghost use Rattle.zw_calls.specs.PrimSeen.{object_seen};
ghost use Rattle.zw_calls.specs.ObjectRow.{object_row_seen};

use zw_table::table;

/// A primitive method of Object (ISO/IEC 30170, 15.2.1), by its name.
#[derive(Clone, Copy, Debug, PartialEq, Eq)]
pub enum ObjectRow {
    Initialize,
}

impl ObjectRow {
    /// The method that has the name.
    pub fn named(name: &str) -> Option<ObjectRow>
        ensures { option_map object_seen result ≡ find (is_named name.now) object_rows }
    {
        let rows = table!(
            "initialize" => ObjectRow::Initialize,
        );
        rows.unwrap().find(name).copied()
    }

    /// Its name.
    pub fn name(&self) -> &'static str
        ensures { result.now ≡ (object_row_seen self.now).0 }
    {
        match self {
            ObjectRow::Initialize => "initialize",
        }
    }
}
