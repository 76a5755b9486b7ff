//! The first refusal decides, in whatever order the keys stand.
ghost use Rattle.std.specs.Prelude.{[], ◌∷◌};
ghost use Rattle.zw_config_examples.specs.Rows.{IsRefused};

/// No document, and keys that are not known (TOML 1.1, "Keys").
#[tactic(auto, unfolding(crate::proofs::ComputingLemmas::reading))]
pub fn unknown_keys()
    ensures not_toml { IsRefused ("rootz" ∷ []) "config: not TOML" }
    ensures twice { IsRefused ("eager = true" ∷ "eager = true" ∷ []) "config: not TOML" }
    ensures unknown { IsRefused ("rootz = 1" ∷ []) "config: unknown key rootz" }
    ensures document_first { IsRefused ("rootz = 1" ∷ "x" ∷ []) "config: not TOML" }
    ensures least { IsRefused ("b = 1" ∷ "a = 1" ∷ "c = 1" ∷ []) "config: unknown key a" }
    ensures front { IsRefused ("bb = 1" ∷ "b = 1" ∷ []) "config: unknown key b" }
    ensures bytes { IsRefused ("b = 1" ∷ "B = 1" ∷ []) "config: unknown key B" }
    ensures before_roots { IsRefused ("root = 1" ∷ "zz = 1" ∷ []) "config: unknown key zz" }
    ensures table { IsRefused ("[rootz]" ∷ "path = \"m\"" ∷ []) "config: unknown key rootz" }
{}

/// Keys in their order.
#[tactic(auto, unfolding(crate::proofs::ComputingLemmas::reading))]
pub fn keys()
    ensures root { IsRefused ("ignore = 1" ∷ "root = 1" ∷ []) "config: wrong kind root" }
    ensures ignore { IsRefused ("collapse = 1" ∷ "ignore = 1" ∷ []) "config: wrong kind ignore" }
    ensures collapse { IsRefused ("no_eager = 1" ∷ "collapse = 1" ∷ []) "config: wrong kind collapse" }
    ensures no_eager { IsRefused ("inflect = 1" ∷ "no_eager = 1" ∷ []) "config: wrong kind no_eager" }
    ensures inflect { IsRefused ("gem = 1" ∷ "inflect = 1" ∷ []) "config: wrong kind inflect" }
    ensures gem { IsRefused ("reloading = 1" ∷ "gem = 1" ∷ []) "config: wrong kind gem" }
    ensures reloading { IsRefused ("eager = 1" ∷ "reloading = 1" ∷ []) "config: wrong kind reloading" }
    ensures eager { IsRefused ("boot = 1" ∷ "eager = 1" ∷ []) "config: wrong kind eager" }
    ensures boot { IsRefused ("callback = 1" ∷ "boot = 1" ∷ []) "config: wrong kind boot" }
{}

/// Elements in their order, each whole before the next; within one its unknown keys, and then its keys in theirs.
#[tactic(auto, unfolding(crate::proofs::ComputingLemmas::reading))]
pub fn elements()
    ensures unknown_first { IsRefused ("[[root]]" ∷ "path = 1" ∷ "zz = 1" ∷ "yy = 1" ∷ []) "config: unknown key root.yy" }
    ensures whole_first { IsRefused ("root = [{path = \"..\"}, {zz = 1}]" ∷ []) "config: bad path root.path" }
    ensures unknown_next { IsRefused ("root = [{zz = 1}, {path = \"..\"}]" ∷ []) "config: unknown key root.zz" }
    ensures path_first { IsRefused ("[[root]]" ∷ "namespace = 1" ∷ "path = 1" ∷ []) "config: wrong kind root.path" }
    ensures double_first { IsRefused ("root = [{path = \"m\"}, {path = \"m\", namespace = \"a\"}]" ∷ []) "config: double root m" }
    ensures namespace_first { IsRefused ("root = [{path = \"m\", namespace = \"a\"}, {path = \"m\"}]" ∷ [])
        "config: bad constant path root.namespace" }
    ensures moment_first { IsRefused ("[[callback]]" ∷ "target = 1" ∷ "run = 1" ∷ []) "config: wrong kind callback.on" }
    ensures target_first { IsRefused ("[[callback]]" ∷ "on = \"load\"" ∷ "target = 1" ∷ "run = 1" ∷ [])
        "config: wrong kind callback.target" }
    ensures program_next { IsRefused ("callback = [{on = \"load\", run = \"1 +\"}, {on = 1}]" ∷ [])
        "config: bad Ruby callback.run" }
{}
