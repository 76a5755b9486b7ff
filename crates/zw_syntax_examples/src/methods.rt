//! Methods, their parameters, and `return`.
ghost use Rattle.std.specs.Prelude.{[], ◌∷◌, codes, negsuc, Some, None};
ghost use Rattle.zw_def_syntax.specs.Token.{malformed, misplaced_jump};
ghost use Rattle.zw_def_syntax.specs.Tree.{def_node, sdef_node, begin_node, not_node, and_node, or_node, return_node, super_node, zsuper_node, seq_node, default_then, no_defaults, no_trees, absent, present, rescue_then, no_rescues, no_branch, array_node, int_node};
ghost use Rattle.zw_syntax_examples.specs.Rows.{either, modified, loop, repeating, Reads, IsRefused, trees, one, int, local, ident, constant, call, send, set, class_a, def, method_f};

/// Names of methods (ISO/IEC 30170, 13.3.1 and 13.4.3).
#[tactic(auto, unfolding(crate::proofs::ComputingLemmas::reading))]
pub fn method_names()
    ensures setter { Reads "" "class A; def x=(v); end; end" (class_a (def "x=" "v" [] ∷ [])) }
    ensures spaced_setter { IsRefused "class A; def x =(v); end; end" 1 malformed }
    ensures index { Reads "" "class A; def self.[](i) i end; end"
        (class_a (sdef_node (codes "[]") (codes "i" ∷ []) no_defaults (one (local "i")) ∷ [])) }
    ensures sign { Reads "" "class A; def <=>(a) end; end" (class_a (def "<=>" "a" [] ∷ [])) }
    ensures keyword { Reads "" "class A; def if; end; def self; end; end"
        (class_a (def "if" "" [] ∷ def "self" "" [] ∷ [])) }
    ensures argument { Reads "" "class A; f def g; end; end" (class_a (send "f" (def "g" "" [] ∷ []) ∷ [])) }
    ensures clauses { Reads "" "class A; def f; 1; rescue B; 2; end; end"
        (method_f (begin_node (one (int 1))
        (rescue_then (one (constant "B")) None (one (int 2)) no_rescues) no_branch no_branch ∷ [])) }
{}

/// Parameters (ISO/IEC 30170, 13.3.2).
#[tactic(auto, unfolding(crate::proofs::ComputingLemmas::reading))]
pub fn parameters()
    ensures optional { Reads "" "class A; def f(a, b = a) [a, b] end; end"
        (class_a (def_node (codes "f") (codes "a" ∷ [])
        (default_then (codes "b") (local "a") no_defaults)
        (one (array_node (trees (local "a" ∷ local "b" ∷ [])))) ∷ [])) }
    ensures parameters_alone { Reads "" "class A; def f(a = (b = 1)) b end; end"
        (class_a (def_node (codes "f") []
        (default_then (codes "a") (set "b" (int 1)) no_defaults) (one (ident "b")) ∷ [])) }
    ensures no_parens { Reads "" "class A; def f x end; end" (class_a (def "f" "x" [] ∷ [])) }
    ensures no_params { Reads "" "class A; def f 1 end; end" (method_f (int 1 ∷ [])) }
    ensures then_required { IsRefused "class A; def f(a = 1, b); end; end" 1 malformed }
    ensures sum { IsRefused "class A; def f x + 1 end; end" 1 malformed }
    ensures number { IsRefused "class A; def f (1) end; end" 1 malformed }
    ensures outer { Reads "x" "class A; def f(a); x; end; end" (class_a (def "f" "a" (ident "x" ∷ []) ∷ [])) }
{}

/// `return` and what it stands before, and `super` (ISO/IEC 30170, 11.5.2.4 and 11.3.4).
#[tactic(auto, unfolding(crate::proofs::ComputingLemmas::reading))]
pub fn returns()
    ensures value { Reads "" "class A; def f; return -1; end; end"
        (method_f (return_node (present (int_node (negsuc 0))) ∷ [])) }
    ensures line_end { Reads "" "class A; def f; return\nend; end" (method_f (return_node absent ∷ [])) }
    ensures semicolon { Reads "" "class A; def f; return; end; end" (method_f (return_node absent ∷ [])) }
    ensures before_end { Reads "" "class A; def f; return end; end" (method_f (return_node absent ∷ [])) }
    ensures parenthesis { Reads "" "class A; def f; (return) end; end" (method_f (return_node absent ∷ [])) }
    ensures before_if { Reads "" "class A; def f; return if 1 end; end"
        (method_f (modified (int 1) (one (return_node absent)) no_trees ∷ [])) }
    ensures before_unless { Reads "" "class A; def f; return unless 1 end; end"
        (method_f (modified (int 1) no_trees (one (return_node absent)) ∷ [])) }
    ensures before_while { Reads "" "class A; def f; return while 1 end; end"
        (method_f (repeating (int 1) (one (return_node absent)) ∷ [])) }
    ensures before_until { Reads "" "class A; def f; return until 1 end; end"
        (method_f (repeating (not_node (int 1)) (one (return_node absent)) ∷ [])) }
    ensures before_and { Reads "" "class A; def f; return and 1 end; end"
        (method_f (and_node (return_node absent) (int 1) ∷ [])) }
    ensures before_or { Reads "" "class A; def f; return or 1 end; end"
        (method_f (or_node (return_node absent) (int 1) ∷ [])) }
    ensures text_end { IsRefused "return" 1 misplaced_jump }
    ensures before_else { IsRefused "if a then return else 2 end" 1 malformed }
    ensures in_text { IsRefused "\"#{return}\"" 1 malformed }
    ensures calls_next { Reads "" "class A; def f; super; super(); super 1; end; end"
        (method_f (zsuper_node ∷ super_node no_trees ∷ super_node (one (int 1)) ∷ [])) }
{}
