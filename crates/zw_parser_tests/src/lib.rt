//! Tests of the parser through its public calls: texts with their programs or their fault, by the rules of the
//! language. They stand apart from the parser, so that it is not proved a second time for them.
#![tactic(auto)]

#[cfg(test)]
mod shown;
#[cfg(test)]
mod tests;
