//! Configurations that are accepted, with what they say.
use std::alloc::Global;
use std::process::Abort;
use std::test::Fail;
use zw_config::{Config, read};
use zw_hooks::HookKind;
use zw_names::Names;

fn config(alloc: Global, names: &mut Names, text: &str) -> Result<Config, Fail> {
    Ok(read(alloc, text.as_bytes(), names)?)
}

#[test]
fn nothing_is_given_by_default(rt: HostRuntime) -> Result<(), Fail> {
    let mut names = Names::new(rt.alloc())?;
    let config = config(rt.alloc(), &mut names, "")?;
    assert!(&rt; config.layout.roots.is_empty());
    assert!(&rt; config.layout.ignore.is_empty());
    assert!(&rt; !config.reloading && !config.eager);
    assert!(&rt; config.boot.is_none() && config.hooks.all.is_empty());
    Ok(())
}

#[test]
fn roots_have_their_order_and_namespaces(rt: HostRuntime) -> Result<(), Fail> {
    let alloc = rt.alloc();
    let mut names = Names::new(alloc)?;
    let text =
        "root = [{path = \"n\", namespace = \"A::B\"}, {path = \"m/x\"}]\nreloading = true\nboot = \"b.rb\"\n";
    let config = config(alloc, &mut names, text)?;
    let roots = &config.layout.roots;
    assert_eq!(&rt; roots.len(), 2);
    assert!(&rt; roots[0].path.text(alloc)?.as_str() == "n");
    assert!(&rt; roots[1].path.text(alloc)?.as_str() == "m/x");
    assert_eq!(&rt; roots[0].namespace.names().len(), 2);
    assert!(&rt; roots[1].namespace.names().is_empty());
    assert!(&rt; config.reloading && !config.eager && config.boot.is_some());
    Ok(())
}

#[test]
fn callbacks_have_their_order(rt: HostRuntime) -> Result<(), Fail> {
    let alloc = rt.alloc();
    let mut names = Names::new(alloc)?;
    let text =
        "[[callback]]\non = \"unload\"\ntarget = \"A\"\nrun = \"puts cpath; path\"\n[[callback]]\non = \"setup\"\nrun = \"\"\n";
    let config = config(alloc, &mut names, text)?;
    let all = &config.hooks.all;
    assert_eq!(&rt; all.len(), 2);
    assert!(&rt; all[0].on == HookKind::Unload && all[1].on == HookKind::Setup);
    assert!(&rt; all[0].target.is_some() && all[1].target.is_none());
    assert_eq!(&rt; all[0].program.statements.len(), 2);
    assert!(&rt; all[1].program.statements.is_empty());
    Ok(())
}
