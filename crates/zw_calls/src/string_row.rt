//! The primitive methods of String.
ghost use Rattle.std.specs.Prelude.{◌≡◌, option_map};
ghost use Rattle.std.specs.List.{find};
ghost use Rattle.zw_def_world.specs.Primitive.{string_rows};
ghost use Rattle.zw_calls.specs.Named.{is_named};
ghost use Rattle.zw_calls.specs.PrimSeen.{string_seen};
ghost use Rattle.zw_calls.specs.StringRow.{string_row_seen};

use zw_table::table;

/// A primitive method of String (ISO/IEC 30170, 15.2.10), by its name.
#[derive(Clone, Copy, Debug, PartialEq, Eq)]
pub enum StringRow {
    Plus,
    Times,
    Less,
    LessOrSame,
    Greater,
    GreaterOrSame,
    Compared,
    Size,
    Length,
    Bytesize,
    IsEmpty,
    Upcase,
    Downcase,
    Capitalize,
    Reverse,
    Includes,
    StartsWith,
    EndsWith,
    At,
    ToI,
    ToSym,
    Strip,
    Split,
    Chars,
    Ljust,
    Rjust,
    DeletePrefix,
    DeleteSuffix,
}

impl StringRow {
    /// The method that has the name.
    pub fn named(name: &str) -> Option<StringRow>
        ensures { option_map string_seen result ≡ find (is_named name.now) string_rows }
    {
        let rows = table!(
            "*" => StringRow::Times,
            "+" => StringRow::Plus,
            "<" => StringRow::Less,
            "<=" => StringRow::LessOrSame,
            "<=>" => StringRow::Compared,
            ">" => StringRow::Greater,
            ">=" => StringRow::GreaterOrSame,
            "[]" => StringRow::At,
            "bytesize" => StringRow::Bytesize,
            "capitalize" => StringRow::Capitalize,
            "chars" => StringRow::Chars,
            "delete_prefix" => StringRow::DeletePrefix,
            "delete_suffix" => StringRow::DeleteSuffix,
            "downcase" => StringRow::Downcase,
            "empty?" => StringRow::IsEmpty,
            "end_with?" => StringRow::EndsWith,
            "include?" => StringRow::Includes,
            "length" => StringRow::Length,
            "ljust" => StringRow::Ljust,
            "reverse" => StringRow::Reverse,
            "rjust" => StringRow::Rjust,
            "size" => StringRow::Size,
            "split" => StringRow::Split,
            "start_with?" => StringRow::StartsWith,
            "strip" => StringRow::Strip,
            "to_i" => StringRow::ToI,
            "to_sym" => StringRow::ToSym,
            "upcase" => StringRow::Upcase,
        );
        rows.unwrap().find(name).copied()
    }

    /// Its name.
    pub fn name(&self) -> &'static str
        ensures { result.now ≡ (string_row_seen self.now).0 }
    {
        match self {
            StringRow::Plus => "+",
            StringRow::Times => "*",
            StringRow::Less => "<",
            StringRow::LessOrSame => "<=",
            StringRow::Greater => ">",
            StringRow::GreaterOrSame => ">=",
            StringRow::Compared => "<=>",
            StringRow::Size => "size",
            StringRow::Length => "length",
            StringRow::Bytesize => "bytesize",
            StringRow::IsEmpty => "empty?",
            StringRow::Upcase => "upcase",
            StringRow::Downcase => "downcase",
            StringRow::Capitalize => "capitalize",
            StringRow::Reverse => "reverse",
            StringRow::Includes => "include?",
            StringRow::StartsWith => "start_with?",
            StringRow::EndsWith => "end_with?",
            StringRow::At => "[]",
            StringRow::ToI => "to_i",
            StringRow::ToSym => "to_sym",
            StringRow::Strip => "strip",
            StringRow::Split => "split",
            StringRow::Chars => "chars",
            StringRow::Ljust => "ljust",
            StringRow::Rjust => "rjust",
            StringRow::DeletePrefix => "delete_prefix",
            StringRow::DeleteSuffix => "delete_suffix",
        }
    }
}
