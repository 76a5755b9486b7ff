//! One component of a path.
ghost use Rattle.std.specs.Prelude.{◌≡◌};
ghost use Rattle.std.specs.List.{list_all};
ghost use Rattle.zw_def.specs.Path.{is_component_byte, is_dots, is_component};
ghost use Rattle.zw_def.specs.Base.{without_rb};
ghost use Rattle.zw_path.specs.BadPath.{bad_component};

use crate::bad_path::BadPath;

/// The most bytes that a component has.
const LONGEST: usize = 255;

fn is_plain(byte: u8) -> bool
    ensures { result ≡ is_component_byte byte }
{
    byte != b'/' && byte >= b' ' && byte != 0x7f
}

fn are_plain(component: &str) -> bool
    ensures { result ≡ list_all is_component_byte component.now }
{
    component.bytes().all(is_plain)
}

fn are_dots(component: &str) -> bool
    ensures { result ≡ is_dots component.now }
{
    component == "." || component == ".."
}

fn is_whole(component: &str) -> bool
    ensures { result ≡ is_component component.now }
{
    if component.is_empty() || component.len() > LONGEST || are_dots(component) {
        return false;
    }
    are_plain(component)
}

/// What is wrong with a component, where something is.
pub(crate) fn bad_component(component: &str) -> Option<BadPath>
    ensures { result ≡ bad_component component.now }
{
    if component.is_empty() {
        Some(BadPath::Empty)
    } else if are_dots(component) {
        Some(BadPath::Dots)
    } else if is_whole(component) {
        None
    } else {
        Some(BadPath::BadChar)
    }
}

/// The component without a final `.rb`.
pub(crate) fn without_ending(component: &str) -> &str
    ensures { result.now ≡ without_rb component.now }
{
    match component.strip_suffix(".rb") {
        Some(front) => front,
        None => component,
    }
}
