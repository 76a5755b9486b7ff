//! The definitions of what is carried out so far: which configurations and class files, what an expression answers from the
//! map of a tree, and what a session writes. It stands on the definitions of texts, paths, trees, maps and configurations,
//! has no code, and promises nothing of its own: what each word means is read in `specs/`.
#![tactic(auto)]
