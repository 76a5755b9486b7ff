//! Sessions, computed by the definitions of `zw_def`, `zw_def_world` and `zw_def_session`. It has no code: each
//! lemma in `proofs/` is a row, what the words, the configuration, the folder and the command stream say beside
//! what the session writes, byte for byte. It stands on the definitions alone, and promises that they say what
//! these rows say.
#![tactic(auto)]
