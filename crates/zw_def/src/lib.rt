//! The definitions that contracts of several crates cite, about texts: the lines of a stream, paths, trees of files,
//! and the names of constants; and what is proved of them. It has no code, and promises nothing of its own: what each
//! word means is read in `specs/`.
#![tactic(auto)]
