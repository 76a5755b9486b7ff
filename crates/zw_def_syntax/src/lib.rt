//! The definitions of the language's text: the tokens that a text is, and the programs that tokens are. It stands on
//! the definitions of texts in `zw_def`, has no code, and promises nothing of its own: what each word means is read in
//! `specs/`.
#![tactic(auto)]
