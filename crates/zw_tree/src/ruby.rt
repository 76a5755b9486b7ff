//! Which paths are those of Ruby files.
ghost use Rattle.std.specs.Prelude.{◌≡◌};
ghost use Rattle.zw_def.specs.Tree.{begins_with_dot, ends_in_rb, is_ruby_path};

use zw_path::Path;

fn ends_in_rb(component: &str) -> bool
    ensures { result ≡ ends_in_rb component.now }
{
    component.ends_with(".rb")
}

fn begins_with_dot(component: &str) -> bool
    ensures { result ≡ begins_with_dot component.now }
{
    component.starts_with('.')
}

/// Whether the last component ends in `.rb`, and no component begins with a dot.
pub fn is_ruby(path: &Path) -> bool
    ensures { result ≡ is_ruby_path path.now }
{
    let components = path.components();
    ends_in_rb(&components[components.len() - 1])
        && !components
            .iter()
            .any(|component| begins_with_dot(component))
}
