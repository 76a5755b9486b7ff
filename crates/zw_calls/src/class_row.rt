//! The primitive methods of Class.
ghost use Rattle.std.specs.Prelude.{◌≡◌, option_map};
ghost use Rattle.std.specs.List.{find};
ghost use Rattle.zw_def_world.specs.Primitive.{class_rows};
ghost use Rattle.zw_calls.specs.Named.{is_named};
ghost use Rattle.zw_calls.specs.PrimSeen.{class_seen};
ghost use Rattle.zw_calls.specs.ClassRow.{class_row_seen};

use zw_table::table;

/// A primitive method of Class (ISO/IEC 30170, 15.2.3), by its name.
#[derive(Clone, Copy, Debug, PartialEq, Eq)]
pub enum ClassRow {
    New,
    Superclass,
}

impl ClassRow {
    /// The method that has the name.
    pub fn named(name: &str) -> Option<ClassRow>
        ensures { option_map class_seen result ≡ find (is_named name.now) class_rows }
    {
        let rows = table!(
            "new" => ClassRow::New,
            "superclass" => ClassRow::Superclass,
        );
        rows.unwrap().find(name).copied()
    }

    /// Its name.
    pub fn name(&self) -> &'static str
        ensures { result.now ≡ (class_row_seen self.now).0 }
    {
        match self {
            ClassRow::New => "new",
            ClassRow::Superclass => "superclass",
        }
    }
}
