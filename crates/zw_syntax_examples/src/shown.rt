//! Programs that are shown and read again.
ghost use Rattle.std.specs.Prelude.{◌≡◌, [], ◌∷◌, codes};
ghost use Rattle.zw_def_syntax.specs.Show.{show};
ghost use Rattle.zw_syntax_examples.specs.Rows.{IsShown, on_line, set, int, call};

/// Literals, variables, assignments, operators and calls.
#[tactic(auto, unfolding(crate::proofs::ComputingLemmas::reading))]
pub fn shown_values()
    ensures text { show (on_line 3 (set "a" (call (int 1) "b" (int 2 ∷ []))) ∷ [])
        ≡ codes " ( a = ( ( 1 ) .b( ( 2 ) ) ) )\n" }
    ensures literals { IsShown "x" "[nil, true, false, self, -7, 8, :a=, :b?, @a, @@a, A, ::A, A::B, x, y, z?, y()]" }
    ensures assignments { IsShown "" "x = @a = @@a = A = A::B = a.b.if = x" }
    ensures updates { IsShown "" "a += 1; @a ||= 2; b ||= 3; c = 4; c && (c = 5); b &&= 6; b || (d = 7)" }
    ensures operators { IsShown "" "a.b(1)[2, 3].C + -d * 3 % 4 - !e <=> f; a == b || c && 1 < 2; not -1" }
    ensures commands { IsShown "g" "f a, g -1; a.b c; f(); g(1)" }
{}

/// Texts.
#[tactic(auto, unfolding(crate::proofs::ComputingLemmas::reading))]
pub fn shown_texts()
    ensures plain { IsShown "" "'a\"#{\\b'" }
    ensures lines { IsShown "" "\"a\n\\n\\u{e9}\"" }
    ensures parts { IsShown "" "\"a\\\\#{b; \"#{c}\"}\\\"#{}\"" }
{}

/// Forms that end with `end`.
#[tactic(auto, unfolding(crate::proofs::ComputingLemmas::reading))]
pub fn shown_forms()
    ensures tests { IsShown "" "if a = 1 then a elsif 2 then 3 else 4 end; unless 1 then 2 end; 1 ? 2 : 3" }
    ensures loops { IsShown "" "while 1 do break; next end; until 2 do; end" }
    ensures clauses { IsShown "" "begin; 1; rescue A, ::B::C => e; e; rescue; 2; else 3; ensure 4; end" }
    ensures groups { IsShown "" "begin 1 end; begin ensure end; (); (1; 2)" }
    ensures bodies { IsShown "" "class A::B < C; a = 1; end; module ::M; end; class ::N; end; module M::N::O; a; end" }
{}

/// Modifiers, whose bodies are read before their tests.
#[tactic(auto, unfolding(crate::proofs::ComputingLemmas::reading))]
pub fn shown_modifiers()
    ensures order { IsShown "" "x if x = 1; y unless y = 2; z until z = 3; w while w = 4" }
    ensures begin_form { IsShown "" "(begin; 1; end) while 2; begin 1 end if 2" }
    ensures body_known { IsShown "x" "(y = x) if (x = y)" }
    ensures test_known { IsShown "y" "if (x = y) then (y = x) end" }
{}

/// Methods.
#[tactic(auto, unfolding(crate::proofs::ComputingLemmas::reading))]
pub fn shown_methods()
    ensures params { IsShown "" "class A; def self.f(a, b = a, c = (d = 1)) [a, b, c, d] end; end" }
    ensures names { IsShown "" "class A; def x=(v) end; def if; end; def self.y=(v) end; def b?; end; def B; end; end" }
    ensures operators { IsShown "" "class A; def [](i) end; def ==(o) end; def -; end; def self.[](i) end; end" }
    ensures jumps { IsShown "" "class A; def f; return if 1; return 2 unless 3; end; end" }
    ensures calls_next { IsShown "" "class A; def f; super; super(); super 1; 2; rescue; 3; end; end" }
{}
