//! How deep forms may stand in one another.
ghost use Rattle.std.specs.Prelude.{◌≡◌, [], ◌∷◌, Ok, Err};
ghost use Rattle.zw_def_syntax.specs.Token.{malformed};
ghost use Rattle.zw_def_syntax.specs.Program.{program_of};
ghost use Rattle.zw_syntax_examples.specs.Rows.{on_line, bracketed, negated, negation, array_in, int};

/// No more than 250 brackets are open.
#[tactic(auto, unfolding(crate::proofs::ComputingLemmas::reading))]
pub fn brackets()
    ensures most { program_of [] (bracketed 250 "(" ")") ≡ Ok (on_line 1 (int 1) ∷ []) }
    ensures too_many { program_of [] (bracketed 251 "(" ")") ≡ Err (record { line = 1; reason = malformed }) }
{}

/// No node is higher than 100.
#[tactic(auto, unfolding(crate::proofs::ComputingLemmas::reading))]
pub fn heights()
    ensures most { program_of [] (negated 99) ≡ Ok (on_line 1 (negation 99) ∷ []) }
    ensures too_high { program_of [] (negated 100) ≡ Err (record { line = 1; reason = malformed }) }
    ensures arrays { program_of [] (bracketed 99 "[" "]") ≡ Ok (on_line 1 (array_in 99) ∷ []) }
    ensures arrays_too_high { program_of [] (bracketed 100 "[" "]") ≡ Err (record { line = 1; reason = malformed }) }
{}
