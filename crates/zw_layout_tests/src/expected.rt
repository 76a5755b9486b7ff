//! What files and directories are expected to define: a constant path, nothing, or the name that is wrong and where.
ghost use Rattle.std.specs.Prelude.{IfOk, IfSome};
ghost use Rattle.zw_def.specs.Names.{AreNamed};

use crate::layout::layout;
use std::alloc::{AllocError, Global};
use std::process::Abort;
use std::test::Fail;
use zw_inflect::Layout;
use zw_layout::{ExpectFault, are_namespaces_named, directory_path, expected_path};
use zw_names::{CPath, Names};
use zw_path::Path;

const FILES: &[(&str, &str)] = &[
    ("m/user.rb", "User"),
    ("m/xml.rb", "XML"),
    ("m/bar_xml.rb", "BarXml"),
    ("m/admin/user.rb", "Admin::User"),
    // The nested root is no namespace of the outer one; what is beside it is.
    ("m/app/concerns/taggable.rb", "Taggable"),
    ("m/app/concerns.rb", "App::Concerns"),
    ("m/app/concerns2/x.rb", "App::Concerns2::X"),
    ("m/app/x/concerns/y.rb", "App::X::Concerns::Y"),
    // Collapsed directories. A file is none, and a pattern for a root changes nothing.
    ("m/booking/actions/create.rb", "Booking::Create"),
    ("m/booking/actions.rb", "Booking::Actions"),
    ("m/a/shared/b.rb", "A::B"),
    ("m/a/shared/deep/b.rb", "A::Deep::B"),
    ("m/a/b/shared/c.rb", "A::B::Shared::C"),
    ("m/inner/a/inner/inner/x.rb", "A::X"),
    ("m/flat.rb", "Flat"),
    // A namespace.
    ("n/job.rb", "Admin::Api::Job"),
    ("n/job/inner/run.rb", "Admin::Api::Job::Run"),
    // No root.
    ("m", "nothing"),
    ("mm/a.rb", "nothing"),
    ("q/1.rb", "nothing"),
    // Wrong names, the first of them.
    ("m/1st.rb", "wrong 1st in m/1st.rb"),
    ("m/admin/1st.rb", "wrong 1st in m/admin/1st.rb"),
    ("m/1a/2b/3c.rb", "wrong 1a in m/1a"),
    ("m/a/a-b/c.rb", "wrong A-b in m/a/a-b"),
    ("m/__/a.rb", "wrong  in m/__"),
    ("n/2/inner/1.rb", "wrong 2 in n/2"),
];

const DIRECTORIES: &[(&str, &str)] = &[
    ("m/booking", "Booking"),
    ("m/booking/actions", "Booking"),
    ("m/booking/actions/deep", "Booking::Deep"),
    ("m/app/concerns", "App::Concerns"),
    ("m/app/concerns/x", "X"),
    ("m/user.rb", "wrong User.rb in m/user.rb"),
    ("n/a/b", "Admin::Api::A::B"),
    ("m", "nothing"),
    ("n", "nothing"),
    ("m/1a/b", "wrong 1a in m/1a"),
];

/// The answer as a text.
fn shown(
    alloc: Global,
    names: &Names,
    answer: Result<Option<CPath>, ExpectFault>,
) -> Result<String, Fail>
    requires { IfOk answer (λ path. IfSome path (AreNamed names.now)) }
{
    match answer {
        Ok(Some(path)) => Ok(path.text(alloc, names)?),
        Ok(None) => Ok(String::from_str(alloc, "nothing")?),
        Err(ExpectFault::Refused(wrong)) => {
            let place = wrong.path.text(alloc)?;
            Ok(format!(in alloc; "wrong {} in {place}", wrong.name)?)
        }
        Err(ExpectFault::Memory) => Err(AllocError.into()),
    }
}

fn told_of_file(
    rt: &impl Abort,
    alloc: Global,
    layout: &Layout,
    names: &mut Names,
    text: &str,
) -> Result<String, Fail> {
    let path = Path::parse(alloc, text)?;
    assert!(rt; are_namespaces_named(layout, names));
    let answer = expected_path(alloc, layout, names, &path);
    shown(alloc, names, answer)
}

fn told_of_directory(
    rt: &impl Abort,
    alloc: Global,
    layout: &Layout,
    names: &mut Names,
    text: &str,
) -> Result<String, Fail> {
    let path = Path::parse(alloc, text)?;
    assert!(rt; are_namespaces_named(layout, names));
    let answer = directory_path(alloc, layout, names, &path);
    shown(alloc, names, answer)
}

#[test]
fn files_are_expected_to_define_constants(rt: HostRuntime) -> Result<(), Fail> {
    let mut names = Names::new(rt.alloc())?;
    let layout = layout(rt.alloc(), &mut names)?;
    for (text, wanted) in FILES {
        let told = told_of_file(&rt, rt.alloc(), &layout, &mut names, text)?;
        assert!(rt; told.as_str() == *wanted, "{text} gives {told}");
    }
    Ok(())
}

#[test]
fn directories_have_constant_paths(rt: HostRuntime) -> Result<(), Fail> {
    let mut names = Names::new(rt.alloc())?;
    let layout = layout(rt.alloc(), &mut names)?;
    for (text, wanted) in DIRECTORIES {
        let told = told_of_directory(&rt, rt.alloc(), &layout, &mut names, text)?;
        assert!(rt; told.as_str() == *wanted, "{text} gives {told}");
    }
    Ok(())
}
