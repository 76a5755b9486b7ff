//! Tests of the lexer through its public calls: texts with their tokens or their fault, by the rules of the
//! language. They stand apart from the lexer, so that it is not proved a second time for them.
#![tactic(auto)]

#[cfg(test)]
mod tests;
