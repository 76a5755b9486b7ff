//! Commands, what follows a primary, and `?:`.
ghost use Rattle.std.specs.Prelude.{[], ◌∷◌, codes, negsuc};
ghost use Rattle.zw_def_syntax.specs.Token.{malformed};
ghost use Rattle.zw_def_syntax.specs.Tree.{int_node, array_node, scoped_node, top_const_node, set_attr, seq_node, not_node, no_trees};
ghost use Rattle.zw_syntax_examples.specs.Rows.{either, modified, loop, repeating, Reads, IsRefused, trees, one, int, local, ident, constant, call, send, set};

/// Calls without parentheses (ISO/IEC 30170, 11.3).
#[tactic(auto, unfolding(crate::proofs::ComputingLemmas::reading))]
pub fn commands()
    ensures known { Reads "f" "f -1" (call (local "f") "-" (int 1 ∷ [])) }
    ensures unknown { Reads "" "f -1" (send "f" (int_node (negsuc 0) ∷ [])) }
    ensures spaced { Reads "" "f - 1" (call (ident "f") "-" (int 1 ∷ [])) }
    ensures next_line { Reads "" "f -\nx" (send "f" (call (ident "x") "-@" [] ∷ [])) }
    ensures no_command_within { Reads "" "f g -1" (send "f" (call (ident "g") "-" (int 1 ∷ []) ∷ [])) }
    ensures group { Reads "" "f (1).abs, 2" (send "f" (call (int 1) "abs" [] ∷ int 2 ∷ [])) }
    ensures program { Reads "" "f (a; b)" (send "f" (seq_node (trees (ident "a" ∷ ident "b" ∷ [])) ∷ [])) }
    ensures parens { Reads "" "f(1).abs" (call (send "f" (int 1 ∷ [])) "abs" []) }
    ensures array { Reads "" "f [0]" (send "f" (array_node (one (int 0)) ∷ [])) }
    ensures known_array { IsRefused "f = 1; f [0]" 1 malformed }
    ensures inversion { Reads "" "f !a" (send "f" (not_node (ident "a") ∷ [])) }
    ensures top { Reads "" "f ::A" (send "f" (top_const_node (codes "A") ∷ [])) }
    ensures receiver { Reads "" "a.b c, 1" (call (ident "a") "b" (ident "c" ∷ int 1 ∷ [])) }
    ensures receiver_value { Reads "" "x = a.b c" (set "x" (call (ident "a") "b" (ident "c" ∷ []))) }
    ensures receiver_sign { Reads "" "a.b -1" (call (ident "a") "b" (int_node (negsuc 0) ∷ [])) }
    ensures receiver_spaced { Reads "" "a.b - 1" (call (call (ident "a") "b" []) "-" (int 1 ∷ [])) }
    ensures assignment_within { Reads "" "f (x = 1)" (send "f" (set "x" (int 1) ∷ [])) }
    ensures assignment_argument { IsRefused "f(x = 1)" 1 malformed }
    ensures after_parens { IsRefused "a.b(1) c" 1 malformed }
    ensures after_constant { IsRefused "a::B c" 1 malformed }
    ensures after_integer { IsRefused "-7.abs 1" 1 malformed }
    ensures within_operand { IsRefused "1 + a.b c" 1 malformed }
{}

/// What follows a primary (ISO/IEC 30170, 11.3 and 11.5.4).
#[tactic(auto, unfolding(crate::proofs::ComputingLemmas::reading))]
pub fn postfixes()
    ensures chain { Reads "" "A::B.c(1)[2, 3].d"
        (call
        (call (call (scoped_node (constant "A") (codes "B")) "c" (int 1 ∷ [])) "[]" (int 2 ∷ int 3 ∷ []))
        "d" []) }
    ensures words { Reads "" "a.class.Nil" (call (call (ident "a") "class" []) "Nil" []) }
    ensures next_line { Reads "" "a\n  .b" (call (ident "a") "b" []) }
    ensures no_items { IsRefused "a[]" 1 malformed }
    ensures blank_index { IsRefused "[1] [0]" 1 malformed }
    ensures name_after_colons { IsRefused "A::b" 1 malformed }
{}

/// `?:` (ISO/IEC 30170, 11.5.2.2).
#[tactic(auto, unfolding(crate::proofs::ComputingLemmas::reading))]
pub fn ternaries()
    ensures nested { Reads "" "1 ? 2 : 3 ? 4 : 5"
        (either (int 1) (one (int 2)) (one (either (int 3) (one (int 4)) (one (int 5))))) }
    ensures mark { IsRefused "x?1:2" 1 malformed }
    ensures symbol { IsRefused "a ?b:c" 1 malformed }
    ensures spaced { Reads "" "a ?b :1" (either (ident "a") (one (ident "b")) (one (int 1))) }
    ensures assignment { IsRefused "1 ? a = 2 : 3" 1 malformed }
{}
