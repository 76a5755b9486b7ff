//! Callbacks.
ghost use Rattle.std.specs.Prelude.{[], ◌∷◌, codes, Some, None};
ghost use Rattle.zw_def_syntax.specs.Tree.{ident_node, local_node, int_node, self_call, tree_then, no_trees};
ghost use Rattle.std.specs.Prelude.{pos};
ghost use Rattle.zw_def_world.specs.Callback.{on_setup, on_load, on_unload};
ghost use Rattle.zw_config_examples.specs.Rows.{IsRefused, Says, callback, calling, empty};

/// When callbacks run, for which keys, and what they know (Zeitwerk README, "Callbacks").
#[tactic(auto, unfolding(crate::proofs::ComputingLemmas::reading))]
pub fn callbacks()
    ensures setup { Says ("[[callback]]" ∷ "on = \"setup\"" ∷ "run = \"cpath\"" ∷ [])
        (calling (callback on_setup None (ident_node (codes "cpath")) ∷ []) empty) }
    ensures load { Says ("[[callback]]" ∷ "on = \"load\"" ∷ "run = \"cpath\"" ∷ [])
        (calling (callback on_load None (local_node (codes "cpath")) ∷ []) empty) }
    ensures unload { Says ("[[callback]]" ∷ "run = \"path\"" ∷ "target = \"A::B\"" ∷ "on = \"unload\"" ∷ [])
        (calling (callback on_unload (Some (codes "A" ∷ codes "B" ∷ [])) (local_node (codes "path")) ∷ []) empty) }
    ensures object { Says ("[[callback]]" ∷ "on = \"load\"" ∷ "target = \"Object\"" ∷ "run = \"value\"" ∷ [])
        (calling (callback on_load (Some []) (local_node (codes "value")) ∷ []) empty) }
    ensures two { Says ("[[callback]]" ∷ "on = \"setup\"" ∷ "run = \"1\"" ∷ "[[callback]]" ∷ "on = \"setup\"" ∷ "run = \"2\"" ∷ [])
        (calling (callback on_setup None (int_node (pos 1)) ∷ callback on_setup None (int_node (pos 2)) ∷ []) empty) }
    ensures misplaced { IsRefused ("[[callback]]" ∷ "on = \"setup\"" ∷ "run = \"return\"" ∷ [])
        "config: bad Ruby callback.run" }
{}

/// Callbacks that are refused.
#[tactic(auto, unfolding(crate::proofs::ComputingLemmas::reading))]
pub fn refused_callbacks()
    ensures no_array { IsRefused ("callback = {}" ∷ []) "config: wrong kind callback" }
    ensures no_table { IsRefused ("callback = [\"setup\"]" ∷ []) "config: wrong kind callback" }
    ensures unknown { IsRefused ("callback = [{path = \"m\"}]" ∷ []) "config: unknown key callback.path" }
    ensures no_moment { IsRefused ("[[callback]]" ∷ "run = \"1\"" ∷ []) "config: wrong kind callback.on" }
    ensures moment_kind { IsRefused ("[[callback]]" ∷ "on = [[]]" ∷ "run = \"1\"" ∷ []) "config: wrong kind callback.on" }
    ensures other_moment { IsRefused ("[[callback]]" ∷ "on = \"Load\"" ∷ "run = \"1\"" ∷ []) "config: wrong kind callback.on" }
    ensures target_of_setup { IsRefused ("[[callback]]" ∷ "on = \"setup\"" ∷ "target = \"A\"" ∷ "run = \"1\"" ∷ [])
        "config: wrong kind callback.target" }
    ensures target_kind { IsRefused ("[[callback]]" ∷ "on = \"load\"" ∷ "target = 1" ∷ "run = \"1\"" ∷ [])
        "config: wrong kind callback.target" }
    ensures target { IsRefused ("[[callback]]" ∷ "on = \"load\"" ∷ "target = \"m\"" ∷ "run = \"1\"" ∷ [])
        "config: bad constant path callback.target" }
    ensures bad_target_of_setup { IsRefused ("[[callback]]" ∷ "on = \"setup\"" ∷ "target = \"m\"" ∷ [])
        "config: wrong kind callback.target" }
    ensures no_program { IsRefused ("[[callback]]" ∷ "on = \"load\"" ∷ []) "config: wrong kind callback.run" }
    ensures program_kind { IsRefused ("[[callback]]" ∷ "on = \"load\"" ∷ "run = {}" ∷ []) "config: wrong kind callback.run" }
    ensures program { IsRefused ("[[callback]]" ∷ "on = \"load\"" ∷ "run = \"1 +\"" ∷ []) "config: bad Ruby callback.run" }
{}
