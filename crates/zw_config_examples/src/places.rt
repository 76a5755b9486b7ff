//! Where files are: roots, patterns, and the boot file.
ghost use Rattle.std.specs.Prelude.{[], ◌∷◌, codes};
ghost use Rattle.zw_config_examples.specs.Rows.{IsRefused, Says, booting, collapsing, eager, empty, ignoring, not_eager, reloading, root, root_in, with_roots};

/// Roots (Zeitwerk README, "Root directories and root namespaces").
#[tactic(auto, unfolding(crate::proofs::ComputingLemmas::reading))]
pub fn roots()
    ensures none { Says [] empty }
    ensures no_element { Says ("root = []" ∷ []) empty }
    ensures one { Says ("reloading = true" ∷ "[[root]]" ∷ "path = \"m\"" ∷ []) (reloading (with_roots (root "m" ∷ []))) }
    ensures inline { Says ("root = [{path = \"m/n\", namespace = \"A::B\"}, {path = \"m\"}]" ∷ [])
        (with_roots (root_in "m/n" (codes "A" ∷ codes "B" ∷ []) ∷ root "m" ∷ [])) }
    ensures object { Says ("[[root]]" ∷ "namespace = \"Object\"" ∷ "path = \"m\"" ∷ []) (with_roots (root "m" ∷ [])) }
    ensures no_array { IsRefused ("root = \"m\"" ∷ []) "config: wrong kind root" }
    ensures one_table { IsRefused ("[root]" ∷ "path = \"m\"" ∷ []) "config: wrong kind root" }
    ensures no_table { IsRefused ("root = [{path = \"m\"}, 3]" ∷ []) "config: wrong kind root" }
    ensures unknown { IsRefused ("[[root]]" ∷ "path = \"m\"" ∷ "zz = 1" ∷ []) "config: unknown key root.zz" }
    ensures no_path { IsRefused ("[[root]]" ∷ "namespace = \"A\"" ∷ []) "config: wrong kind root.path" }
    ensures path_kind { IsRefused ("[[root]]" ∷ "path = 1" ∷ []) "config: wrong kind root.path" }
    ensures bad_path { IsRefused ("[[root]]" ∷ "path = \"../m\"" ∷ []) "config: bad path root.path" }
    ensures double { IsRefused ("[[root]]" ∷ "path = \"m\"" ∷ "[[root]]" ∷ "path = \"m\"" ∷ []) "config: double root m" }
    ensures namespace_kind { IsRefused ("[[root]]" ∷ "path = \"m\"" ∷ "namespace = []" ∷ [])
        "config: wrong kind root.namespace" }
    ensures namespace { IsRefused ("[[root]]" ∷ "path = \"m\"" ∷ "namespace = \"a\"" ∷ [])
        "config: bad constant path root.namespace" }
{}

/// Patterns (Zeitwerk README, "Ignoring parts of the project", "Collapsing directories" and "Eager load exclusions").
#[tactic(auto, unfolding(crate::proofs::ComputingLemmas::reading))]
pub fn patterns()
    ensures all { Says ("no_eager = [\"m/slow.rb\"]" ∷ "collapse = [\"m/*/actions\"]" ∷ "ignore = [\"**/x\", \"y\"]" ∷ [])
        (ignoring ("**/x" ∷ "y" ∷ []) (collapsing ("m/*/actions" ∷ []) (not_eager ("m/slow.rb" ∷ []) empty))) }
    ensures twice { Says ("ignore = [\"x\", \"x\"]" ∷ []) (ignoring ("x" ∷ "x" ∷ []) empty) }
    ensures no_array { IsRefused ("ignore = \"x\"" ∷ []) "config: wrong kind ignore" }
    ensures element_kind { IsRefused ("collapse = [\"x\", 1]" ∷ []) "config: wrong kind collapse" }
    ensures bad_path { IsRefused ("no_eager = [\"x\", \"a//b\"]" ∷ []) "config: bad path no_eager" }
    ensures kind_first { IsRefused ("ignore = [1, \"a//b\"]" ∷ []) "config: wrong kind ignore" }
    ensures content_first { IsRefused ("ignore = [\"a//b\", 1]" ∷ []) "config: bad path ignore" }
{}

/// The boot file, and booleans.
#[tactic(auto, unfolding(crate::proofs::ComputingLemmas::reading))]
pub fn boot()
    ensures file { Says ("boot = \"config/boot.rb\"" ∷ []) (booting "config/boot.rb" empty) }
    ensures both { Says ("eager = true" ∷ "reloading = true" ∷ []) (eager (reloading empty)) }
    ensures off { Says ("eager = false" ∷ "reloading = false" ∷ []) empty }
    ensures namespace { Says ("boot = \"boot.rb\"" ∷ "[[root]]" ∷ "path = \"n\"" ∷ "namespace = \"Nope\"" ∷ [])
        (booting "boot.rb" (with_roots (root_in "n" (codes "Nope" ∷ []) ∷ []))) }
    ensures file_kind { IsRefused ("boot = true" ∷ []) "config: wrong kind boot" }
    ensures bad_path { IsRefused ("boot = \"/boot.rb\"" ∷ []) "config: bad path boot" }
    ensures reloading_kind { IsRefused ("reloading = \"true\"" ∷ []) "config: wrong kind reloading" }
    ensures eager_kind { IsRefused ("eager = 1" ∷ []) "config: wrong kind eager" }
{}
