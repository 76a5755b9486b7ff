//! The primitive methods of Exception.
ghost use Rattle.std.specs.Prelude.{◌≡◌, option_map};
ghost use Rattle.std.specs.List.{find};
ghost use Rattle.zw_def_world.specs.Primitive.{exception_rows};
ghost use Rattle.zw_calls.specs.Named.{is_named};
ghost use Rattle.zw_calls.specs.PrimSeen.{exception_seen};
ghost use Rattle.zw_calls.specs.ExceptionRow.{exception_row_seen};

use zw_table::table;

/// A primitive method of Exception (ISO/IEC 30170, 15.2.22), by its name.
#[derive(Clone, Copy, Debug, PartialEq, Eq)]
pub enum ExceptionRow {
    Initialize,
    Message,
    ToS,
    Inspect,
}

impl ExceptionRow {
    /// The method that has the name.
    pub fn named(name: &str) -> Option<ExceptionRow>
        ensures { option_map exception_seen result ≡ find (is_named name.now) exception_rows }
    {
        let rows = table!(
            "initialize" => ExceptionRow::Initialize,
            "inspect" => ExceptionRow::Inspect,
            "message" => ExceptionRow::Message,
            "to_s" => ExceptionRow::ToS,
        );
        rows.unwrap().find(name).copied()
    }

    /// Its name.
    pub fn name(&self) -> &'static str
        ensures { result.now ≡ (exception_row_seen self.now).0 }
    {
        match self {
            ExceptionRow::Initialize => "initialize",
            ExceptionRow::Message => "message",
            ExceptionRow::ToS => "to_s",
            ExceptionRow::Inspect => "inspect",
        }
    }
}
