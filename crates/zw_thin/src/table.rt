//! The classes that are set in Object.
ghost use Rattle.std.specs.Prelude.{◌≡◌, OnOk, IfSome, option_map};
ghost use Rattle.zw_def_thin.specs.Evaluation.{class_named, method_named};
ghost use Rattle.zw_thin.specs.ClassFile.{methods_seen, MethodsNamed};
ghost use Rattle.zw_thin.specs.Class.{classes_seen, ClassesNamed, open_seen, Opens, KeepsNames};

use crate::class_file::{ClassFile, Method};
use indexmap::IndexMap;
use std::alloc::AllocError;
use zw_names::{Name, Names};

/// The classes that are set, by their names, each with its methods, in the order in which they were set.
pub(crate) type Classes = IndexMap<Name, Vec<Method>>;

/// A class that is set.
#[derive(Clone, Copy, Drop)]
pub(crate) struct Class<'a> {
    pub(crate) name: &'a str,
    pub(crate) methods: &'a [Method],
}

/// Opens a class: its methods are added to those of the class of its name, where there is one.
pub(crate) fn open(classes: &mut Classes, class: ClassFile) -> Result<(), AllocError>
    ensures opened { OnOk result (Opens class classes.old.entries classes.new.entries) }
    ensures named { KeepsNames class classes.old.entries classes.new.entries }
{
    let ClassFile { name, mut methods } = class;
    match classes.get_index_of(&name) {
        None => {
            classes.insert(name, methods)?;
        }
        Some(place) => classes[place].append(&mut methods)?,
    }
    Ok(())
}

/// The class of a name, if it is set.
pub(crate) fn class_of<'a>(names: &'a Names, classes: &'a Classes, name: &str) -> Option<Class<'a>>
    requires { ClassesNamed names.now classes.now.entries }
    ensures told { option_map (open_seen names.now) result
        ≡ class_named name.now (classes_seen names.now classes.now.entries) }
    ensures named { IfSome result (λ c. MethodsNamed names.now c.methods.now) }
{
    let name = names.find(name)?;
    let methods = classes.get(&name)?;
    Some(Class {
        name: names.text(name),
        methods: methods.as_slice(),
    })
}

/// What the method of a name answers that was defined last, if there is one.
pub(crate) fn value_of(names: &Names, methods: &[Method], name: &str) -> Option<i64>
    requires { MethodsNamed names.now methods.now }
    ensures { result ≡ option_map (λ m. m.value) (method_named name.now (methods_seen names.now methods.now)) }
{
    let name = names.find(name)?;
    methods
        .iter()
        .rev()
        .find(|method| method.name == name)
        .map(|method| method.value)
}
