//! Variables that are set. Section numbers are those of ISO/IEC 30170.
ghost use Rattle.std.specs.Prelude.{◌≡◌, IfOk, Some};
ghost use Rattle.zw_def_syntax.specs.Tree.{leaf, over};
ghost use Rattle.zw_ast.specs.Gives.{Gives};
ghost use Rattle.zw_ast.specs.Grown.{grown_seen};
ghost use Rattle.zw_ast.specs.Named.{IsName, IsNamed};
ghost use Rattle.zw_grammar.specs.Variable.{name_in, read_of, set_by};

use zw_ast::{Built, MakeFault, Maker};
use zw_names::Name;

/// A variable, by its name (11.5.4).
#[derive(Clone, Copy)]
pub(crate) enum Variable {
    Local(Name),
    Instance(Name),
    Class(Name),
}

/// The variable's value.
pub(crate) fn read(maker: &Maker<'_>, variable: Variable) -> Result<Built, MakeFault>
    requires variable { IsName maker.now.names.now (name_in variable) }
    ensures told { Gives (grown_seen maker.now.names.now)
        (Some (leaf (read_of maker.now.names.now variable))) result }
    ensures named { IfOk result (IsNamed maker.now.names.now) }
{
    match variable {
        Variable::Local(name) => maker.local(name),
        Variable::Instance(name) => maker.instance_variable(name),
        Variable::Class(name) => maker.class_variable(name),
    }
}

/// An assignment to the variable (11.4.2.2).
pub(crate) fn set(maker: &Maker<'_>, variable: Variable, value: Built) -> Result<Built, MakeFault>
    requires variable { IsName maker.now.names.now (name_in variable) }
    requires value { IsNamed maker.now.names.now value }
    ensures told { Gives (grown_seen maker.now.names.now)
        (over (set_by maker.now.names.now variable) (grown_seen maker.now.names.now value)) result }
    ensures named { IfOk result (IsNamed maker.now.names.now) }
{
    match variable {
        Variable::Local(name) => maker.set_local(name, value),
        Variable::Instance(name) => maker.set_instance_variable(name, value),
        Variable::Class(name) => maker.set_class_variable(name, value),
    }
}
