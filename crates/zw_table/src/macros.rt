//! Macros that write tables and the arms over their rows.

/// Writes a table from one list of its rows, in rising order of their keys:
/// `table!("and" => Word::And, "or" => Word::Or)` is the call of `Table::of` with the keys as one text and the values
/// in their order.
#[macro_export]
macro_rules! table {
    ($key:literal => $value:expr $(, $next_key:literal => $next_value:expr)* $(,)?) => {
        $crate::Table::of(concat!($key $(, " ", $next_key)*), [$value $(, $next_value)*])
    };
}

/// Writes the arms that go with a table, one for each row:
/// `arms!(match word(text) { Word::And => and, Word::Or => or })` calls the function of the value `word` with the
/// arguments in parentheses.
#[macro_export]
macro_rules! arms {
    (match $value:ident $arguments:tt { $($row:path => $call:ident),+ $(,)? }) => {
        match $value { $($row => $call $arguments,)+ }
    };
}
