//! The definition of evaluation: values, the records of modules and objects, the world, the texts of values and of
//! faults, the primitive methods, look-up and loading of constants, the meaning of each kind of node, and the acts
//! of setup, reload and eager loading. It stands on the definitions of texts, trees of files and layouts in
//! `zw_def` and of programs in `zw_def_syntax`, has no code, and promises nothing of its own but the laws in
//! `proofs/`: what each word means is read in `specs/`.
#![tactic(auto)]
