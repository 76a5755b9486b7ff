//! Texts that are refused, with their lines and reasons.
ghost use Rattle.zw_def_syntax.specs.Token.{malformed, misplaced_jump, misplaced_def, definition_in_method, repeated_parameter, unended_text};
ghost use Rattle.zw_syntax_examples.specs.Rows.{IsRefused};

/// The statement with its separator is not in the grammar.
#[tactic(auto, unfolding(crate::proofs::ComputingLemmas::reading))]
pub fn malformed_texts()
    ensures operand { IsRefused "1 +" 1 malformed }
    ensures separator { IsRefused "1 2" 1 malformed }
    ensures closer { IsRefused "1; )" 1 malformed }
    ensures end { IsRefused "1\nend" 2 malformed }
    ensures open { IsRefused "\nclass A\ndef f" 2 malformed }
    ensures lexical_first { IsRefused "1 +\n'" 2 unended_text }
{}

/// The least reason of the first statement that has one.
#[tactic(auto, unfolding(crate::proofs::ComputingLemmas::reading))]
pub fn first_reasons()
    ensures jump { IsRefused "while 1 do class A; break; end; end" 1 misplaced_jump }
    ensures loop_test { IsRefused "while break do end" 1 misplaced_jump }
    ensures method { IsRefused "def f; end" 1 misplaced_def }
    ensures method_in_method { IsRefused "class A; def f; class B; def g; end; end; end; end" 1 misplaced_def }
    ensures constant { IsRefused "class A; def f; X = 1; end; end" 1 definition_in_method }
    ensures default { IsRefused "class A; def f(a = (B::X = 1)); end; end" 1 definition_in_method }
    ensures return_in_class { IsRefused "class A; def f; class B; return; end; end; end" 1 definition_in_method }
    ensures parameter { IsRefused "class A; def f(a, a); end; end" 1 repeated_parameter }
    ensures least { IsRefused "class A; def f(a, a); X = 1; end; end; next; def g; end" 1 definition_in_method }
    ensures least_of_all { IsRefused "(def f(a, a); X = 1; end; next)" 1 misplaced_jump }
    ensures first { IsRefused "return; 1 +" 1 misplaced_jump }
{}

/// Each reason on a second line.
#[tactic(auto, unfolding(crate::proofs::ComputingLemmas::reading))]
pub fn second_line()
    ensures malformed { IsRefused "1\nclass\nA" 2 malformed }
    ensures jump { IsRefused "1\nclass A\nreturn\nend" 2 misplaced_jump }
    ensures method { IsRefused "1\nif 2\ndef f; end\nend" 2 misplaced_def }
    ensures definition { IsRefused "1\nclass A\ndef f\nmodule B; end\nend\nend" 2 definition_in_method }
    ensures parameter { IsRefused "1\nclass A\ndef self.f(a, b,\na = 1); end\nend" 2 repeated_parameter }
{}
