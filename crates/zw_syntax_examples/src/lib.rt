//! Texts and the programs that they are, computed by the definitions of `zw_def_syntax`. It has no code: each
//! function's clauses are rows, a text beside the tree or the fault that the rules of the language give for it. It
//! stands on the definitions alone, and promises that they say what these rows say.
#![tactic(auto)]

mod calls;
mod forms;
mod limits;
mod methods;
mod refusals;
mod shown;
mod values;

pub use calls::{commands, postfixes, ternaries};
pub use forms::{bodies, clauses, modifiers, statements, tests};
pub use limits::{brackets, heights};
pub use methods::{method_names, parameters, returns};
pub use refusals::{first_reasons, malformed_texts, second_line};
pub use shown::{shown_forms, shown_methods, shown_modifiers, shown_texts, shown_values};
pub use values::{assignments, levels, literals, texts};
