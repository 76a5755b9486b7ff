//! The names of all primitive methods.

use std::process::Abort;
use std::test::Fail;
use zw_calls::{prim, row};
use zw_heap::CoreClass;

/// The methods of each class or module that has some.
pub(crate) const METHODS: &[(CoreClass, &str)] = &[
    (
        CoreClass::Kernel,
        "puts raise class nil? == != equal? is_a? instance_of? respond_to? to_s inspect freeze frozen?",
    ),
    (
        CoreClass::Module,
        "name to_s inspect === < <= > >= ancestors include extend include? attr_reader attr_writer attr_accessor private public private_class_method const_get const_defined? autoload? method_defined?",
    ),
    (CoreClass::Class, "new superclass"),
    (CoreClass::Object, "initialize"),
    (CoreClass::NilClass, "to_i to_a"),
    (
        CoreClass::Integer,
        "+ - * / % -@ < <= > >= <=> abs zero? positive? negative? even? odd? succ pred to_i divmod between? clamp",
    ),
    (
        CoreClass::String,
        "+ * < <= > >= <=> size length bytesize empty? upcase downcase capitalize reverse include? start_with? end_with? [] to_i to_sym strip split chars ljust rjust delete_prefix delete_suffix",
    ),
    (CoreClass::Symbol, "to_sym size <=>"),
    (
        CoreClass::Array,
        "+ - [] size length empty? first last include? index reverse join take drop compact uniq sum",
    ),
    (CoreClass::Exception, "initialize message to_s inspect"),
];

fn try_methods(rt: &impl Abort, class: CoreClass, names: &str) -> usize {
    let mut count = 0usize;
    for name in names.split_whitespace() {
        let Some(found) = prim(class, name) else {
            panic!(rt; "no method {name}");
        };
        let (of, text) = row(found);
        assert!(rt; of == class, "{name} is of another class");
        assert!(rt; text == name, "{name} is called otherwise");
        count = count.saturating_add(1);
    }
    count
}

#[test]
fn each_method_is_found_by_its_name(rt: HostRuntime) -> Result<(), Fail> {
    let mut count = 0usize;
    for (class, names) in METHODS {
        count = count.saturating_add(try_methods(&rt, *class, names));
    }
    assert!(rt; count == 116, "{count} methods");
    Ok(())
}

/// Names that are no methods of these classes.
const ABSENT: &[(CoreClass, &str)] = &[
    (CoreClass::Integer, ""),
    (CoreClass::Integer, "size"),
    (CoreClass::Integer, "+ "),
    (CoreClass::Integer, "between"),
    (CoreClass::String, "uniq"),
    (CoreClass::Symbol, "length"),
    (CoreClass::Array, "abs"),
    (CoreClass::Object, "puts"),
    (CoreClass::Class, "name"),
    (CoreClass::NilClass, "to_s"),
    (CoreClass::TrueClass, "to_s"),
    (CoreClass::FalseClass, "=="),
    (CoreClass::StandardError, "message"),
    (CoreClass::Zeitwerk, "name"),
];

#[test]
fn other_names_are_not_found(rt: HostRuntime) -> Result<(), Fail> {
    for (class, name) in ABSENT {
        let found = prim(*class, name);
        assert!(rt; found.is_none(), "a method {name}");
    }
    Ok(())
}
