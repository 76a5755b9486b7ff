//! What Ruby answers to `<=>` of Symbol, as symbol.rb writes it.

/// Two names, and the number that compares them.
pub(crate) const COMPARED: &[(&str, &str, &str)] = &[
    ("", "", "0"),
    ("a", "b", "-1"),
    ("b", "a", "1"),
    ("ab", "a", "1"),
    ("é", "z", "1"),
    ("Z", "a", "-1"),
    ("𝄞", "～", "1"),
];
