//! The definition of a whole session: what the words, the folder and the command stream make the program write, and how
//! it ends. It stands on the definitions of texts, trees, maps and evaluation, has no code, and promises nothing of its
//! own: what each word means is read in `specs/`.
#![tactic(auto)]
