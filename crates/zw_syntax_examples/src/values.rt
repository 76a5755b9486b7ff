//! Literals, texts, assignments, and the levels of signs.
ghost use Rattle.std.specs.Prelude.{[], ◌∷◌, codes, negsuc};
ghost use Rattle.zw_def_syntax.specs.Token.{malformed};
ghost use Rattle.zw_def_syntax.specs.Tree.{nil_node, true_node, self_node, int_node, str_node, sym_node, interp_node, array_node, ivar_node, cvar_node, scoped_node, top_const_node, set_ivar, set_cvar, set_const, set_scoped, set_attr, not_node, and_node, or_node, seq_node, text_then, program_then, no_parts, no_trees};
ghost use Rattle.zw_syntax_examples.specs.Rows.{either, modified, loop, repeating, Reads, IsRefused, trees, one, int, local, ident, constant, call, send, set};

/// Literals, and names that are no variables (ISO/IEC 30170, 8.7.6 and 11.5).
#[tactic(auto, unfolding(crate::proofs::ComputingLemmas::reading))]
pub fn literals()
    ensures nil { Reads "" "nil" nil_node }
    ensures symbol { Reads "" ":a=" (sym_node (codes "a=")) }
    ensures array { Reads "" "[1, true, self,]" (array_node (trees (int 1 ∷ true_node ∷ self_node ∷ []))) }
    ensures name { Reads "a" "[a, b, c?, b()]"
        (array_node (trees (local "a" ∷ ident "b" ∷ send "c?" [] ∷ send "b" [] ∷ []))) }
    ensures constants { Reads "" "[::A, A::B]"
        (array_node (trees (top_const_node (codes "A") ∷ scoped_node (constant "A") (codes "B") ∷ []))) }
    ensures negative { Reads "" "-7.abs" (call (int_node (negsuc 6)) "abs" []) }
    ensures negated { Reads "" "- 7.abs" (call (call (int 7) "abs" []) "-@" []) }
    ensures group { Reads "" "((1))" (int 1) }
    ensures groups { Reads "" "[(), (1; 2)]"
        (array_node (trees (seq_node no_trees ∷ seq_node (trees (int 1 ∷ int 2 ∷ [])) ∷ []))) }
{}

/// Texts, with interpolations too (ISO/IEC 30170, 8.7.6.3).
#[tactic(auto, unfolding(crate::proofs::ComputingLemmas::reading))]
pub fn texts()
    ensures plain { Reads "" "'a\\b'" (str_node (codes "a\\b")) }
    ensures parts { Reads "" "\"a#{b}c\""
        (interp_node (text_then (codes "a") (program_then (one (ident "b")) (text_then (codes "c") no_parts)))) }
    ensures empty_parts { Reads "" "\"#{}#{1; 2}\""
        (interp_node (text_then [] (program_then no_trees
        (text_then [] (program_then (trees (int 1 ∷ int 2 ∷ [])) (text_then [] no_parts)))))) }
    ensures nested { Reads "" "\"#{\"#{a}\"}\""
        (interp_node (text_then [] (program_then
        (one (interp_node (text_then [] (program_then (one (ident "a")) (text_then [] no_parts)))))
        (text_then [] no_parts)))) }
    ensures learns { Reads "" "\"#{a = 1}\" + a"
        (call (interp_node (text_then [] (program_then (one (set "a" (int 1))) (text_then [] no_parts)))) "+"
        (local "a" ∷ [])) }
{}

/// Assignments and their short forms (ISO/IEC 30170, 11.4.2).
#[tactic(auto, unfolding(crate::proofs::ComputingLemmas::reading))]
pub fn assignments()
    ensures twice { Reads "" "a = b = 1" (set "a" (set "b" (int 1))) }
    ensures known_before { Reads "" "a = a" (set "a" (local "a")) }
    ensures variables { Reads "" "@a = @@b = C = 1"
        (set_ivar (codes "a") (set_cvar (codes "b") (set_const (codes "C") (int 1)))) }
    ensures scoped { Reads "" "A::B::C = 1" (set_scoped (scoped_node (constant "A") (codes "B")) (codes "C") (int 1)) }
    ensures attribute { Reads "" "a.b.if = 1" (set_attr (call (ident "a") "b" []) (codes "if") (int 1)) }
    ensures sum { Reads "" "a += f 1" (set "a" (call (local "a") "+" (send "f" (int 1 ∷ []) ∷ []))) }
    ensures default { Reads "" "@a ||= 1" (or_node (ivar_node (codes "a")) (set_ivar (codes "a") (int 1))) }
    ensures both { Reads "a" "a &&= 1" (and_node (local "a") (set "a" (int 1))) }
    ensures class_variable { IsRefused "@@a ||= 1" 1 malformed }
    ensures top_constant { IsRefused "::A = 1" 1 malformed }
    ensures index { IsRefused "a[0] = 1" 1 malformed }
    ensures marked { IsRefused "a.b? = 1" 1 malformed }
{}

/// The levels of signs (ISO/IEC 30170, 11.2 and 11.4.4).
#[tactic(auto, unfolding(crate::proofs::ComputingLemmas::reading))]
pub fn levels()
    ensures product { Reads "" "1 + 2 * 3" (call (int 1) "+" (call (int 2) "*" (int 3 ∷ []) ∷ [])) }
    ensures left { Reads "" "1 - 2 - 3" (call (call (int 1) "-" (int 2 ∷ [])) "-" (int 3 ∷ [])) }
    ensures compare { Reads "" "1 < 2 == 3 >= 4"
        (call (call (int 1) "<" (int 2 ∷ [])) "==" (call (int 3) ">=" (int 4 ∷ []) ∷ [])) }
    ensures logic { Reads "" "1 || 2 && 3 || 4" (or_node (or_node (int 1) (and_node (int 2) (int 3))) (int 4)) }
    ensures unary { Reads "" "!1 == -2 + 3"
        (call (not_node (int 1)) "==" (call (int_node (negsuc 1)) "+" (int 3 ∷ []) ∷ [])) }
    ensures words { Reads "" "not 1 and 2 or 3" (or_node (and_node (not_node (int 1)) (int 2)) (int 3)) }
    ensures alone { IsRefused "1 == 2 == 3" 1 malformed }
    ensures alone_after { IsRefused "1 <=> 2 + 3 != 4" 1 malformed }
{}
