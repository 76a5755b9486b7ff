//! How names of constants are made.
ghost use Rattle.std.specs.Prelude.{[], ◌∷◌};
ghost use Rattle.zw_config_examples.specs.Rows.{IsRefused, Says, empty, inflecting, of_gem, override};

/// Overrides (Zeitwerk README, "Inflection").
#[tactic(auto, unfolding(crate::proofs::ComputingLemmas::reading))]
pub fn overrides()
    ensures none { Says ("[inflect]" ∷ []) empty }
    ensures some { Says ("[inflect]" ∷ "html_parser = \"HTMLParser\"" ∷ "xml = \"XML\"" ∷ [])
        (inflecting (override "html_parser" "HTMLParser" ∷ override "xml" "XML" ∷ []) empty) }
    ensures no_table { IsRefused ("inflect = [\"XML\"]" ∷ []) "config: wrong kind inflect" }
    ensures no_text { IsRefused ("inflect = {a = 1}" ∷ []) "config: wrong kind inflect" }
    ensures dotted { IsRefused ("[inflect]" ∷ "a.b = \"C\"" ∷ []) "config: wrong kind inflect" }
    ensures no_name { IsRefused ("inflect = {a = \"b\"}" ∷ []) "config: wrong kind inflect" }
    ensures path { IsRefused ("inflect = {a = \"A::B\"}" ∷ []) "config: wrong kind inflect" }
{}

/// The gem inflector (Zeitwerk README, "Gem inflector").
#[tactic(auto, unfolding(crate::proofs::ComputingLemmas::reading))]
pub fn gems()
    ensures alone { Says ("gem = \"lib/my_gem.rb\"" ∷ []) (of_gem "lib/my_gem.rb" [] empty) }
    ensures with_overrides { Says ("gem = \"lib/my_gem.rb\"" ∷ "[inflect]" ∷ "xml = \"XML\"" ∷ [])
        (of_gem "lib/my_gem.rb" (override "xml" "XML" ∷ []) empty) }
    ensures kind { IsRefused ("gem = 1" ∷ []) "config: wrong kind gem" }
    ensures bad_path { IsRefused ("gem = \"lib//my_gem.rb\"" ∷ []) "config: bad path gem" }
    ensures no_ruby { IsRefused ("gem = \"lib/my_gem\"" ∷ []) "config: bad path gem" }
{}
