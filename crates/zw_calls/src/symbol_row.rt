//! The primitive methods of Symbol.
ghost use Rattle.std.specs.Prelude.{◌≡◌, option_map};
ghost use Rattle.std.specs.List.{find};
ghost use Rattle.zw_def_world.specs.Primitive.{symbol_rows};
ghost use Rattle.zw_calls.specs.Named.{is_named};
ghost use Rattle.zw_calls.specs.PrimSeen.{symbol_seen};
ghost use Rattle.zw_calls.specs.SymbolRow.{symbol_row_seen};

use zw_table::table;

/// A primitive method of Symbol (ISO/IEC 30170, 15.2.11), by its name.
#[derive(Clone, Copy, Debug, PartialEq, Eq)]
pub enum SymbolRow {
    ToSym,
    Size,
    Compared,
}

impl SymbolRow {
    /// The method that has the name.
    pub fn named(name: &str) -> Option<SymbolRow>
        ensures { option_map symbol_seen result ≡ find (is_named name.now) symbol_rows }
    {
        let rows = table!(
            "<=>" => SymbolRow::Compared,
            "size" => SymbolRow::Size,
            "to_sym" => SymbolRow::ToSym,
        );
        rows.unwrap().find(name).copied()
    }

    /// Its name.
    pub fn name(&self) -> &'static str
        ensures { result.now ≡ (symbol_row_seen self.now).0 }
    {
        match self {
            SymbolRow::ToSym => "to_sym",
            SymbolRow::Size => "size",
            SymbolRow::Compared => "<=>",
        }
    }
}
