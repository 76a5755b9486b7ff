//! What boot defines where it runs no file: the core classes and modules (ISO/IEC 30170, 15.2; Zeitwerk README, "Errors").
ghost use Rattle.std.specs.Prelude.{◌≡◌, ◌++◌, List, IfOk, OnOk, map};
ghost use Rattle.zw_def.specs.Text.{Text};
ghost use Rattle.zw_def.specs.Nesting.{child};
ghost use Rattle.zw_def.specs.Names.{AreNamed, OnlyGrows, texts_of};
ghost use Rattle.zw_map.specs.BootSeen.{AreBootNamed};
ghost use Rattle.zw_view.specs.Core.{IsCore, own_rows, rows_told};

use std::alloc::{AllocError, Global};
use zw_names::{CPath, Names};

/// The names of those that stand in Object, but for Object itself.
const OF_OBJECT: [&str; 25] = [
    "Kernel",
    "Module",
    "Class",
    "NilClass",
    "TrueClass",
    "FalseClass",
    "Integer",
    "String",
    "Symbol",
    "Array",
    "Exception",
    "Zeitwerk",
    "ScriptError",
    "StandardError",
    "SyntaxError",
    "LoadError",
    "ArgumentError",
    "IndexError",
    "NameError",
    "RangeError",
    "RuntimeError",
    "TypeError",
    "ZeroDivisionError",
    "NoMethodError",
    "FrozenError",
];

/// The names of those that stand in Zeitwerk.
const OF_ZEITWERK: [&str; 4] = [
    "Error",
    "ReloadingDisabledError",
    "SetupRequired",
    "NameError",
];

/// Adds the modules of these names in the module of this path.
fn push_modules(
    alloc: Global,
    names: &mut Names,
    rows: &mut Vec<(CPath, bool)>,
    above: &CPath,
    texts: &[&str],
) -> Result<(), AllocError>
    requires above { AreNamed names.old above.now }
    requires rows { AreBootNamed names.old rows.old.items }
    ensures told { OnOk result (rows_told names.new rows.new.items ≡ rows_told names.old rows.old.items
        ++ own_rows (texts_of names.old above.now) (map (λ t. t.now) texts.now)) }
    ensures named { OnOk result (AreBootNamed names.new rows.new.items) }
    ensures grows { OnlyGrows names.old names.new }
{
    for text in texts {
        let name = names.intern(text)?;
        rows.push((above.child(alloc, name)?, true))?;
    }
    Ok(())
}

/// The constants of the core classes and modules: their paths, with true where the constant is the module of that very
/// name. The path of Object is the empty one, so the constant `Object` is none.
pub(crate) fn core_constants(
    alloc: Global,
    names: &mut Names,
) -> Result<Vec<(CPath, bool)>, AllocError>
    ensures core { IfOk result (λ rows. IsCore names.new rows.items) }
    ensures grows { OnlyGrows names.old names.new }
{
    let object = CPath::object(alloc);
    let constant = object.child(alloc, names.intern("Object")?)?;
    let zeitwerk = object.child(alloc, names.intern("Zeitwerk")?)?;
    let mut rows = Vec::new(alloc);
    rows.push((object.copy(alloc)?, true))?;
    rows.push((constant, false))?;
    push_modules(alloc, names, &mut rows, &object, &OF_OBJECT)?;
    push_modules(alloc, names, &mut rows, &zeitwerk, &OF_ZEITWERK)?;
    Ok(rows)
}
