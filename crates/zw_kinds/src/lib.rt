//! Lemmas on the kinds of nodes: what a node of each kind stands for, and which names it holds. It stands on the nodes
//! of `zw_ast`, has no code, and promises nothing of its own.
#![tactic(auto)]
