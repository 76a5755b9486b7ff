//! The primitive methods of Integer.
ghost use Rattle.std.specs.Prelude.{◌≡◌, option_map};
ghost use Rattle.std.specs.List.{find};
ghost use Rattle.zw_def_world.specs.Primitive.{integer_rows};
ghost use Rattle.zw_calls.specs.Named.{is_named};
ghost use Rattle.zw_calls.specs.PrimSeen.{integer_seen};
ghost use Rattle.zw_calls.specs.IntegerRow.{integer_row_seen};

use zw_table::table;

/// A primitive method of Integer (ISO/IEC 30170, 15.2.8), by its name.
#[derive(Clone, Copy, Debug, PartialEq, Eq)]
pub enum IntegerRow {
    Plus,
    Minus,
    Times,
    Over,
    Rest,
    Negated,
    Less,
    LessOrSame,
    Greater,
    GreaterOrSame,
    Compared,
    Abs,
    IsZero,
    IsPositive,
    IsNegative,
    IsEven,
    IsOdd,
    Succ,
    Pred,
    ToI,
    Divmod,
    IsBetween,
    Clamp,
}

impl IntegerRow {
    /// The method that has the name.
    pub fn named(name: &str) -> Option<IntegerRow>
        ensures { option_map integer_seen result ≡ find (is_named name.now) integer_rows }
    {
        let rows = table!(
            "%" => IntegerRow::Rest,
            "*" => IntegerRow::Times,
            "+" => IntegerRow::Plus,
            "-" => IntegerRow::Minus,
            "-@" => IntegerRow::Negated,
            "/" => IntegerRow::Over,
            "<" => IntegerRow::Less,
            "<=" => IntegerRow::LessOrSame,
            "<=>" => IntegerRow::Compared,
            ">" => IntegerRow::Greater,
            ">=" => IntegerRow::GreaterOrSame,
            "abs" => IntegerRow::Abs,
            "between?" => IntegerRow::IsBetween,
            "clamp" => IntegerRow::Clamp,
            "divmod" => IntegerRow::Divmod,
            "even?" => IntegerRow::IsEven,
            "negative?" => IntegerRow::IsNegative,
            "odd?" => IntegerRow::IsOdd,
            "positive?" => IntegerRow::IsPositive,
            "pred" => IntegerRow::Pred,
            "succ" => IntegerRow::Succ,
            "to_i" => IntegerRow::ToI,
            "zero?" => IntegerRow::IsZero,
        );
        rows.unwrap().find(name).copied()
    }

    /// Its name.
    pub fn name(&self) -> &'static str
        ensures { result.now ≡ (integer_row_seen self.now).0 }
    {
        match self {
            IntegerRow::Plus => "+",
            IntegerRow::Minus => "-",
            IntegerRow::Times => "*",
            IntegerRow::Over => "/",
            IntegerRow::Rest => "%",
            IntegerRow::Negated => "-@",
            IntegerRow::Less => "<",
            IntegerRow::LessOrSame => "<=",
            IntegerRow::Greater => ">",
            IntegerRow::GreaterOrSame => ">=",
            IntegerRow::Compared => "<=>",
            IntegerRow::Abs => "abs",
            IntegerRow::IsZero => "zero?",
            IntegerRow::IsPositive => "positive?",
            IntegerRow::IsNegative => "negative?",
            IntegerRow::IsEven => "even?",
            IntegerRow::IsOdd => "odd?",
            IntegerRow::Succ => "succ",
            IntegerRow::Pred => "pred",
            IntegerRow::ToI => "to_i",
            IntegerRow::Divmod => "divmod",
            IntegerRow::IsBetween => "between?",
            IntegerRow::Clamp => "clamp",
        }
    }
}
