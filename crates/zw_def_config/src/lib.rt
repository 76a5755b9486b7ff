//! The definition of a configuration: what the bytes of its file say, key by key, or why they are refused. It stands on
//! the definitions of `zw_def`, `zw_def_syntax`, `zw_def_world` and `zw_def_session`, and on the documents of `toml`. It has
//! no code, and promises nothing of its own: what each key means is read in `specs/`.
#![tactic(auto)]
