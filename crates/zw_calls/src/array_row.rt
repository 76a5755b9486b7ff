//! The primitive methods of Array.
ghost use Rattle.std.specs.Prelude.{◌≡◌, option_map};
ghost use Rattle.std.specs.List.{find};
ghost use Rattle.zw_def_world.specs.Primitive.{array_rows};
ghost use Rattle.zw_calls.specs.Named.{is_named};
ghost use Rattle.zw_calls.specs.PrimSeen.{array_seen};
ghost use Rattle.zw_calls.specs.ArrayRow.{array_row_seen};

use zw_table::table;

/// A primitive method of Array (ISO/IEC 30170, 15.2.12), by its name.
#[derive(Clone, Copy, Debug, PartialEq, Eq)]
pub enum ArrayRow {
    Plus,
    Minus,
    At,
    Size,
    Length,
    IsEmpty,
    First,
    Last,
    Includes,
    Index,
    Reverse,
    Join,
    Take,
    Drop,
    Compact,
    Uniq,
    Sum,
}

impl ArrayRow {
    /// The method that has the name.
    pub fn named(name: &str) -> Option<ArrayRow>
        ensures { option_map array_seen result ≡ find (is_named name.now) array_rows }
    {
        let rows = table!(
            "+" => ArrayRow::Plus,
            "-" => ArrayRow::Minus,
            "[]" => ArrayRow::At,
            "compact" => ArrayRow::Compact,
            "drop" => ArrayRow::Drop,
            "empty?" => ArrayRow::IsEmpty,
            "first" => ArrayRow::First,
            "include?" => ArrayRow::Includes,
            "index" => ArrayRow::Index,
            "join" => ArrayRow::Join,
            "last" => ArrayRow::Last,
            "length" => ArrayRow::Length,
            "reverse" => ArrayRow::Reverse,
            "size" => ArrayRow::Size,
            "sum" => ArrayRow::Sum,
            "take" => ArrayRow::Take,
            "uniq" => ArrayRow::Uniq,
        );
        rows.unwrap().find(name).copied()
    }

    /// Its name.
    pub fn name(&self) -> &'static str
        ensures { result.now ≡ (array_row_seen self.now).0 }
    {
        match self {
            ArrayRow::Plus => "+",
            ArrayRow::Minus => "-",
            ArrayRow::At => "[]",
            ArrayRow::Size => "size",
            ArrayRow::Length => "length",
            ArrayRow::IsEmpty => "empty?",
            ArrayRow::First => "first",
            ArrayRow::Last => "last",
            ArrayRow::Includes => "include?",
            ArrayRow::Index => "index",
            ArrayRow::Reverse => "reverse",
            ArrayRow::Join => "join",
            ArrayRow::Take => "take",
            ArrayRow::Drop => "drop",
            ArrayRow::Compact => "compact",
            ArrayRow::Uniq => "uniq",
            ArrayRow::Sum => "sum",
        }
    }
}
