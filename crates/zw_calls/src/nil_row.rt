//! The primitive methods of NilClass.
ghost use Rattle.std.specs.Prelude.{◌≡◌, option_map};
ghost use Rattle.std.specs.List.{find};
ghost use Rattle.zw_def_world.specs.Primitive.{nil_rows};
ghost use Rattle.zw_calls.specs.Named.{is_named};
ghost use Rattle.zw_calls.specs.PrimSeen.{nil_seen};
ghost use Rattle.zw_calls.specs.NilRow.{nil_row_seen};

use zw_table::table;

/// A primitive method of NilClass (ISO/IEC 30170, 15.2.4), by its name.
#[derive(Clone, Copy, Debug, PartialEq, Eq)]
pub enum NilRow {
    ToI,
    ToA,
}

impl NilRow {
    /// The method that has the name.
    pub fn named(name: &str) -> Option<NilRow>
        ensures { option_map nil_seen result ≡ find (is_named name.now) nil_rows }
    {
        let rows = table!(
            "to_a" => NilRow::ToA,
            "to_i" => NilRow::ToI,
        );
        rows.unwrap().find(name).copied()
    }

    /// Its name.
    pub fn name(&self) -> &'static str
        ensures { result.now ≡ (nil_row_seen self.now).0 }
    {
        match self {
            NilRow::ToI => "to_i",
            NilRow::ToA => "to_a",
        }
    }
}
