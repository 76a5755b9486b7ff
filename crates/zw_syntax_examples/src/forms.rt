//! Forms that end with `end`, and modifiers.
ghost use Rattle.std.specs.Prelude.{[], ◌∷◌, codes, Some, None};
ghost use Rattle.zw_def_syntax.specs.Token.{malformed};
ghost use Rattle.zw_def_syntax.specs.Tree.{Statement, scoped_node, top_const_node, not_node, begin_node, seq_node, class_node, module_node, no_trees, absent, present, innermost, topmost, within_node, rescue_then, no_rescues, no_branch, branch, break_node, and_node, array_node};
ghost use Rattle.zw_syntax_examples.specs.Rows.{either, modified, loop, repeating, Reads, IsProgram, IsRefused, on_line, trees, one, int, local, ident, constant, call, send, set, class_a, def, method_f};

/// Modifiers (ISO/IEC 30170, 12.3 to 12.6).
#[tactic(auto, unfolding(crate::proofs::ComputingLemmas::reading))]
pub fn modifiers()
    ensures turns { Reads "" "f a, b if c while d"
        (repeating (ident "d") (one (modified (ident "c") (one (send "f" (ident "a" ∷ ident "b" ∷ []))) no_trees))) }
    ensures unless_form { Reads "" "1 unless 2 and 3" (modified (and_node (int 2) (int 3)) no_trees (one (int 1))) }
    ensures until_form { Reads "" "1 until 2" (repeating (not_node (int 2)) (one (int 1))) }
    ensures body_first { Reads "" "a if a = 1" (modified (set "a" (int 1)) (one (ident "a")) no_trees) }
    ensures begin_alone { IsRefused "begin; end while 1" 1 malformed }
    ensures begin_if { Reads "" "begin; end if 1" (modified (int 1) (one (seq_node no_trees)) no_trees) }
    ensures begin_group { Reads "" "(begin; end) while 1" (repeating (int 1) (one (seq_node no_trees))) }
{}

/// Tests and loops (ISO/IEC 30170, 11.5.2.2 and 11.5.2.3).
#[tactic(auto, unfolding(crate::proofs::ComputingLemmas::reading))]
pub fn tests()
    ensures elsif { Reads "" "if 1 then 2 elsif 3; 4\nelse 5 end"
        (either (int 1) (one (int 2)) (one (either (int 3) (one (int 4)) (one (int 5))))) }
    ensures test_first { Reads "" "if a = 1 then a end" (either (set "a" (int 1)) (one (local "a")) no_trees) }
    ensures unless_form { Reads "" "unless 1\nthen 2 else 3 end" (either (int 1) (one (int 3)) (one (int 2))) }
    ensures elsif_after_unless { IsRefused "unless 1 then 2 elsif 3 then 4 end" 1 malformed }
    ensures loops { Reads "" "while f 1 do break end" (loop (send "f" (int 1 ∷ [])) (one break_node)) }
    ensures until_form { Reads "" "until 1\n2; 3\nend" (loop (not_node (int 1)) (trees (int 2 ∷ int 3 ∷ []))) }
    ensures no_then { IsRefused "if 1 2 end" 1 malformed }
{}

/// Statements and the separators between them (ISO/IEC 30170, 10 and 12).
#[tactic(auto, unfolding(crate::proofs::ComputingLemmas::reading))]
pub fn statements()
    ensures empty { IsProgram "" [] }
    ensures separators { IsProgram ";\n # a\n;" [] }
    ensures lines { IsProgram "\n1;; 2\r\n\n(3\n) # b\n[4,\n5\n]"
        (on_line 2 (int 1) ∷ on_line 2 (int 2) ∷ on_line 4 (int 3)
        ∷ on_line 6 (array_node (trees (int 4 ∷ int 5 ∷ []))) ∷ []) }
    ensures comma_line { IsRefused "1\n2\n, 3" 3 malformed }
    ensures known_later { IsProgram "a = 1 if 2\na"
        (on_line 1 (modified (int 2) (one (set "a" (int 1))) no_trees) ∷ on_line 2 (local "a") ∷ []) }
{}

/// Clauses (ISO/IEC 30170, 11.5.2.5).
#[tactic(auto, unfolding(crate::proofs::ComputingLemmas::reading))]
pub fn clauses()
    ensures no_clause { Reads "" "begin 1; 2 end" (seq_node (trees (int 1 ∷ int 2 ∷ []))) }
    ensures all { Reads "" "begin; 1; rescue A, ::B::C => e; e; rescue; 2; else 3; ensure 4; end"
        (begin_node (one (int 1))
        (rescue_then
        (trees (constant "A" ∷ scoped_node (top_const_node (codes "B")) (codes "C") ∷ []))
        (Some (codes "e")) (one (local "e"))
        (rescue_then no_trees None (one (int 2)) no_rescues))
        (branch (one (int 3))) (branch (one (int 4)))) }
    ensures no_separator { Reads "" "begin; x rescue Nope; 2; end"
        (begin_node (one (ident "x"))
        (rescue_then (one (constant "Nope")) None (one (int 2)) no_rescues) no_branch no_branch) }
    ensures lone_else { IsRefused "begin; 1; else 2; end" 1 malformed }
    ensures known { IsProgram "begin; rescue => e; end; e"
        (on_line 1
        (begin_node no_trees (rescue_then no_trees (Some (codes "e")) no_trees no_rescues) no_branch no_branch)
        ∷ on_line 1 (local "e") ∷ []) }
    ensures ensured { Reads "" "begin ensure end" (begin_node no_trees no_rescues no_branch (branch no_trees)) }
{}

/// Classes and modules (ISO/IEC 30170, 13.1.2 and 13.2.2).
#[tactic(auto, unfolding(crate::proofs::ComputingLemmas::reading))]
pub fn bodies()
    ensures superclass { Reads "" "class A::B < C::D; begin; 1; rescue E, F; 2; end; end"
        (class_node (within_node (constant "A")) (codes "B") (present (scoped_node (constant "C") (codes "D")))
        (one (begin_node (one (int 1))
        (rescue_then (trees (constant "E" ∷ constant "F" ∷ [])) None (one (int 2)) no_rescues)
        no_branch no_branch))) }
    ensures top { Reads "" "class ::A\nend" (class_node topmost (codes "A") absent no_trees) }
    ensures module { Reads "" "module ::A::B; end"
        (module_node (within_node (top_const_node (codes "A"))) (codes "B") no_trees) }
    ensures known { IsProgram "a = 1\nclass A; a; b = 2; end\n[a, b]"
        (on_line 1 (set "a" (int 1)) ∷ on_line 2 (class_a (ident "a" ∷ set "b" (int 2) ∷ []))
        ∷ on_line 3 (array_node (trees (local "a" ∷ ident "b" ∷ []))) ∷ []) }
    ensures known_superclass { IsProgram "class A < (b = C)\nb\nend\nb"
        (on_line 1 (class_node innermost (codes "A") (present (set "b" (constant "C"))) (one (ident "b")))
        ∷ on_line 4 (local "b") ∷ []) }
    ensures no_separator { IsRefused "class A end" 1 malformed }
{}
