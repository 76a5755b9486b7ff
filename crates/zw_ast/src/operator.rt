//! The names of the methods that operators call.
ghost use Rattle.std.specs.Prelude.{◌≡◌, true, map, OnOk};
ghost use Rattle.zw_def.specs.Text.{is_among};
ghost use Rattle.zw_def.specs.Names.{OnlyGrows};
ghost use Rattle.zw_ast.specs.Named.{IsName};
ghost use Rattle.zw_ast.specs.Node.{name_seen};
ghost use Rattle.zw_ast.specs.Operator.{operators, are_spelled, AreSpelled};

use crate::maker::Maker;
use std::alloc::AllocError;
use zw_names::{Name, Names};

/// The operators that are methods: those between two operands, the minus before one, and the index.
const OPERATORS: [&str; 14] = [
    "+", "-", "*", "/", "%", "==", "!=", "<=>", "<", "<=", ">", ">=", "-@", "[]",
];

fn spell_all(names: &mut Names, texts: &[&str]) -> Result<(), AllocError>
    ensures spelled { OnOk result (are_spelled names.new (map (λ text. text.now) texts.now) ≡ true) }
    ensures grows { OnlyGrows names.old names.new }
{
    'texts: for text in texts {
        names.intern(*text)?;
    }
    Ok(())
}

/// Makes the names of the operators, where they are not there.
pub fn spell_operators(names: &mut Names) -> Result<(), AllocError>
    ensures spelled { OnOk result (AreSpelled names.new) }
    ensures grows { OnlyGrows names.old names.new }
{
    spell_all(names, &OPERATORS)
}

impl<'t> Maker<'t> {
    /// The name of an operator, by its text.
    pub fn operator(&self, text: &str) -> Name
        requires { is_among operators text.now ≡ true }
        ensures told { name_seen self.now.names.now result ≡ text.now }
        ensures named { IsName self.now.names.now result }
    {
        match self.names.find(text) {
            Some(name) => name,
            None => unreachable!(),
        }
    }
}
