//! Which callbacks run for a key, and in which order (Zeitwerk README, "Callbacks").
use crate::{Hook, HookKind, Hooks};
use std::alloc::Global;
use std::process::Abort;
use std::test::Fail;
use zw_ast::Program;
use zw_names::{CPath, Names};

/// When, and for which path, or nothing for any.
type Row = (HookKind, &'static str);

const CALLBACKS: [Row; 9] = [
    (HookKind::Load, ""),
    (HookKind::Load, "A"),
    (HookKind::Unload, "A"),
    (HookKind::Load, "A::B"),
    (HookKind::Setup, ""),
    (HookKind::Load, "A"),
    (HookKind::Load, ""),
    (HookKind::Unload, ""),
    (HookKind::Setup, ""),
];

const RUNS: [(HookKind, &str, &[usize]); 8] = [
    (HookKind::Load, "A", &[1, 5, 0, 6]),
    (HookKind::Load, "A::B", &[3, 0, 6]),
    (HookKind::Load, "B", &[0, 6]),
    (HookKind::Load, "B::A", &[0, 6]),
    (HookKind::Load, "A::B::A", &[0, 6]),
    (HookKind::Unload, "A", &[2, 7]),
    (HookKind::Unload, "A::B", &[7]),
    (HookKind::Setup, "Object", &[4, 8]),
];

fn hook(alloc: Global, names: &mut Names, row: &Row) -> Result<Hook, Fail> {
    let target = if row.1.is_empty() {
        None
    } else {
        Some(CPath::parse(alloc, names, row.1)?)
    };
    let program = Program {
        statements: Vec::new(alloc),
    };
    Ok(Hook {
        on: row.0,
        target,
        program,
    })
}

fn hooks(alloc: Global, names: &mut Names) -> Result<Hooks, Fail> {
    let mut all = Vec::new(alloc);
    for row in &CALLBACKS {
        all.push(hook(alloc, names, row)?)?;
    }
    Ok(Hooks { all })
}

#[test]
fn those_for_the_path_run_before_those_for_any(rt: HostRuntime) -> Result<(), Fail> {
    let alloc = rt.alloc();
    let mut names = Names::new(alloc)?;
    let hooks = hooks(alloc, &mut names)?;
    for (on, path, wanted) in &RUNS {
        let path = CPath::parse(alloc, &mut names, path)?;
        let places = hooks.for_key(alloc, *on, &path)?;
        assert!(&rt; places.as_slice() == *wanted, "{places:?}");
    }
    Ok(())
}

#[test]
fn each_callback_stands_at_its_place(rt: HostRuntime) -> Result<(), Fail> {
    let alloc = rt.alloc();
    let mut names = Names::new(alloc)?;
    let hooks = hooks(alloc, &mut names)?;
    for place in 0..CALLBACKS.len() {
        match hooks.at(place) {
            Some(hook) => assert!(&rt; hook.on == CALLBACKS[place].0),
            None => rt.abort(),
        }
    }
    assert!(&rt; hooks.at(CALLBACKS.len()).is_none());
    Ok(())
}
