//! Methods: what is defined in one table, lines of receivers, and the first method of a name.
use crate::plan::{Made, extend_in, include_in, last_of, letters_of, made_by, module_of};
use std::alloc::Global;
use std::process::Abort;
use std::test::Fail;
use zw_heap::{ModuleId, Value};
use zw_methods::{
    BodyId, Method, MethodBody, MethodFault, MethodRefusal, Methods, ModuleLine, line_of,
};
use zw_names::{Name, Names};

/// A method with that body.
fn code(number: usize) -> Method {
    Method {
        body: MethodBody::Code(BodyId(number)),
        private: false,
    }
}

/// What is defined, in this order: the module of a letter, whether in its singleton table, and the method's number.
const DEFINED: [(u8, bool, usize); 4] = [
    (b'M', false, 1),
    (b'M', true, 2),
    (b'N', false, 3),
    (b'N', false, 4),
];

fn defined(rt: &impl Abort, alloc: Global, made: &Made, name: Name) -> Result<Methods, Fail> {
    let mut methods = Methods::new(alloc)?;
    for (letter, singleton, number) in DEFINED {
        let owner = module_of(rt, made, letter);
        methods.define(owner, singleton, name, code(number), &made.heap)?;
    }
    Ok(methods)
}

fn try_method(
    rt: &impl Abort,
    methods: &Methods,
    place: (ModuleId, bool),
    name: Name,
    wanted: Option<Method>,
) {
    let place = ModuleLine {
        module: place.0,
        singleton: place.1,
    };
    assert!(rt; methods.method(place, name) == wanted);
}

#[test]
fn a_method_is_defined_in_one_table(rt: HostRuntime) -> Result<(), Fail> {
    let mut names = Names::new(rt.alloc())?;
    let x = names.intern("x")?;
    let y = names.intern("y")?;
    let made = made_by(&rt, rt.alloc(), "mM- mN-")?;
    let methods = defined(&rt, rt.alloc(), &made, x)?;
    let m = module_of(&rt, &made, b'M');
    let n = module_of(&rt, &made, b'N');
    try_method(&rt, &methods, (m, false), x, Some(code(1)));
    try_method(&rt, &methods, (m, true), x, Some(code(2)));
    try_method(&rt, &methods, (n, false), x, Some(code(4)));
    try_method(&rt, &methods, (n, false), y, None);
    Ok(())
}

#[test]
fn the_first_method_of_a_name_is_found(rt: HostRuntime) -> Result<(), Fail> {
    let mut names = Names::new(rt.alloc())?;
    let x = names.intern("x")?;
    let made = made_by(&rt, rt.alloc(), "mM- mN- mP-")?;
    let (m, n) = (module_of(&rt, &made, b'M'), module_of(&rt, &made, b'N'));
    let p = module_of(&rt, &made, b'P');
    let mut methods = Methods::new(rt.alloc())?;
    methods.define(n, false, x, code(1), &made.heap)?;
    methods.define(p, true, x, code(2), &made.heap)?;
    let line = [
        ModuleLine {
            module: m,
            singleton: false,
        },
        ModuleLine {
            module: n,
            singleton: false,
        },
        ModuleLine {
            module: p,
            singleton: true,
        },
        ModuleLine {
            module: n,
            singleton: false,
        },
    ];
    let found = methods.find(&line, x);
    assert!(rt; found.is_some_and(|f| f.at == 1 && f.method == code(1)));
    let found = methods.find_super(&line, 1, x);
    assert!(rt; found.is_some_and(|f| f.at == 2 && f.method == code(2)));
    let found = methods.find_super(&line, 2, x);
    assert!(rt; found.is_some_and(|f| f.at == 3 && f.method == code(1)));
    assert!(rt;
        methods.find_super(&line, 3, x).is_none()
            && methods.find_super(&line, usize::MAX, x).is_none()
    );
    Ok(())
}

/// What is refused where a module is frozen.
const FROZEN: Result<(), MethodFault> = Err(MethodFault::Refused(MethodRefusal::Frozen));

/// What is refused where a module stands above what it would include.
const CYCLIC: Result<(), MethodFault> = Err(MethodFault::Refused(MethodRefusal::Cyclic));

#[test]
fn a_frozen_module_does_not_change(rt: HostRuntime) -> Result<(), Fail> {
    let mut names = Names::new(rt.alloc())?;
    let x = names.intern("x")?;
    let mut made = made_by(&rt, rt.alloc(), "mM- cA-M")?;
    let a = module_of(&rt, &made, b'A');
    made.heap.freeze(Value::Module(a));
    let mut methods = Methods::new(rt.alloc())?;
    let a = module_of(&rt, &made, b'A');
    assert!(rt; methods.define(a, true, x, code(1), &made.heap) == FROZEN);
    let (a, m) = (module_of(&rt, &made, b'A'), module_of(&rt, &made, b'M'));
    assert!(rt; extend_in(&rt, &mut made.heap, a, m) == FROZEN);
    assert!(rt; include_in(&rt, rt.alloc(), &mut made.heap, a, m) == FROZEN);
    Ok(())
}

#[test]
fn what_is_included_does_not_lead_back(rt: HostRuntime) -> Result<(), Fail> {
    let mut made = made_by(&rt, rt.alloc(), "mM- mN-M mP-N")?;
    let (m, p) = (module_of(&rt, &made, b'M'), module_of(&rt, &made, b'P'));
    assert!(rt; include_in(&rt, rt.alloc(), &mut made.heap, m, p) == CYCLIC);
    assert!(rt; include_in(&rt, rt.alloc(), &mut made.heap, m, m) == CYCLIC);
    assert!(rt; include_in(&rt, rt.alloc(), &mut made.heap, p, m).is_ok());
    let m = module_of(&rt, &made, b'M');
    made.heap.freeze(Value::Module(m));
    let (m, p) = (module_of(&rt, &made, b'M'), module_of(&rt, &made, b'P'));
    assert!(rt; include_in(&rt, rt.alloc(), &mut made.heap, m, p) == FROZEN);
    Ok(())
}

/// The places of a line: a module's letter, with `'` where it is its singleton table.
fn places_of(alloc: Global, made: &Made, line: &[ModuleLine]) -> Result<String, Fail> {
    let mut text = String::new(alloc);
    for place in line {
        text.push_str(&letters_of(alloc, made, &[place.module])?)?;
        if place.singleton {
            text.push('\'')?;
        }
    }
    Ok(text)
}

/// The line of a module as a receiver, after it and others were extended: each pair of letters is one extension.
fn try_line(
    rt: &impl Abort,
    alloc: Global,
    plan: &str,
    extensions: &[(u8, u8)],
    wanted: &str,
) -> Result<(), Fail> {
    let mut made = made_by(rt, alloc, plan)?;
    for (into, added) in extensions {
        let (into, added) = (module_of(rt, &made, *into), module_of(rt, &made, *added));
        extend_in(rt, &mut made.heap, into, added)?;
    }
    let last = last_of(rt, &made);
    let line = line_of(alloc, &made.heap, Value::Module(last))?;
    let told = places_of(alloc, &made, &line)?;
    assert!(rt; told.as_str() == wanted, "at {wanted}");
    Ok(())
}

#[test]
fn a_class_answers_with_its_superclasses(rt: HostRuntime) -> Result<(), Fail> {
    try_line(&rt, rt.alloc(), "cA-", &[], "A'O'12OK")?;
    try_line(
        &rt,
        rt.alloc(),
        "mE- cB- cAB",
        &[(b'B', b'E')],
        "A'B'EO'12OK",
    )?;
    try_line(
        &rt,
        rt.alloc(),
        "mF- mE-F mG- cA-",
        &[(b'A', b'E'), (b'A', b'G')],
        "A'GEFO'12OK",
    )?;
    try_line(
        &rt,
        rt.alloc(),
        "mE- cB- cAB",
        &[(b'A', b'E'), (b'B', b'E')],
        "A'EB'EO'12OK",
    )?;
    try_line(
        &rt,
        rt.alloc(),
        "mE- cA-",
        &[(b'A', b'E'), (b'A', b'E')],
        "A'EO'12OK",
    )
}

#[test]
fn a_module_answers_with_its_extensions(rt: HostRuntime) -> Result<(), Fail> {
    try_line(&rt, rt.alloc(), "mM-", &[], "M'2OK")?;
    try_line(&rt, rt.alloc(), "mM-", &[(b'M', b'M')], "M'M2OK")?;
    try_line(&rt, rt.alloc(), "mN- mM-N", &[(b'M', b'M')], "M'MN2OK")
}

#[test]
fn an_object_answers_with_the_ancestors_of_its_class(rt: HostRuntime) -> Result<(), Fail> {
    let mut made = made_by(&rt, rt.alloc(), "mN- mM-N cB-N cABM")?;
    let a = module_of(&rt, &made, b'A');
    assert!(rt; a.0 < made.heap.module_count());
    let object = made.heap.make_object(a)?;
    let line = line_of(rt.alloc(), &made.heap, Value::Object(object))?;
    let told = places_of(rt.alloc(), &made, &line)?;
    assert!(rt; told.as_str() == "AMBNOK");
    let line = line_of(rt.alloc(), &made.heap, Value::Int(7))?;
    assert!(rt; line.len() == 3);
    Ok(())
}

#[test]
fn a_copy_has_the_methods_of_the_heap_alone(rt: HostRuntime) -> Result<(), Fail> {
    let mut names = Names::new(rt.alloc())?;
    let x = names.intern("x")?;
    let small = made_by(&rt, rt.alloc(), "mM-")?;
    let large = made_by(&rt, rt.alloc(), "mM- mN-")?;
    let mut methods = Methods::new(rt.alloc())?;
    let (m, n) = (module_of(&rt, &large, b'M'), module_of(&rt, &large, b'N'));
    methods.define(m, true, x, code(1), &large.heap)?;
    methods.define(n, true, x, code(2), &large.heap)?;
    let copy = methods.copy_boot(&small.heap)?;
    let itself = ModuleLine {
        module: m,
        singleton: true,
    };
    let other = ModuleLine {
        module: n,
        singleton: true,
    };
    assert!(rt; copy.method(itself, x) == Some(code(1)) && copy.method(other, x).is_none());
    Ok(())
}
