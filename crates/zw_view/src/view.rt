//! The view of a tree.
ghost use Rattle.std.specs.Prelude.{◌≡◌, ◌==◌, IfOk, length, map, not, option_map, string_bytes};
ghost use Rattle.std.specs.List.{find};
ghost use Rattle.zw_def.specs.Layout.{Layout as Shown};
ghost use Rattle.zw_def.specs.Map.{map_of};
ghost use Rattle.zw_def.specs.Names.{AreNamed, texts_of};
ghost use Rattle.zw_def.specs.ConstantPath.{constant_path_text};
ghost use Rattle.zw_def.specs.Shadow.{shadowed};
ghost use Rattle.zw_def.specs.Tree.{Tree as Files};
ghost use Rattle.zw_def.specs.Visible.{visible_files};
ghost use Rattle.zw_def_session.specs.Answers as defined;
ghost use Rattle.zw_def_session.specs.Opening.{leads};
ghost use Rattle.zw_def_world.specs.BootTable.{boot_of};
ghost use Rattle.zw_def_world.specs.CoreWorld.{core_world};
ghost use Rattle.zw_def_world.specs.World.{Setting};
ghost use Rattle.zw_inflect.specs.Layout.{layout_seen};
ghost use Rattle.zw_layout.specs.Expects.{AreNamespacesNamed};
ghost use Rattle.zw_map.specs.Expected.{expected_of};
ghost use Rattle.zw_view.specs.View.{IsNamed, IsView};

use crate::boot::core_constants;
use crate::line::{expected_line, key_lines, shadow_lines, wrong_name_line};
use std::alloc::{AllocError, Global};
use zw_base::Fault;
use zw_inflect::Layout;
use zw_map::{expected, is_module, keys, shadows};
use zw_names::{CPath, Names};
use zw_path::Path;
use zw_scan::Scan;
use zw_tree::Tree;

/// What a layout shows of a tree, where boot runs no file.
#[derive(Drop)]
pub struct View {
    names: Names,
    layout: Layout,
    scan: Scan,
    boot: Vec<(CPath, bool)>,
}

impl View {
    /// The view of the tree under the layout, whose names are told by the table.
    pub fn new(alloc: Global, names: Names, layout: Layout, tree: &Tree) -> Result<View, AllocError>
        requires { AreNamespacesNamed names layout }
        ensures told { IfOk result (IsView (layout_seen names layout) tree.now) }
        ensures named { IfOk result IsNamed }
    {
        let mut names = names;
        let scan = Scan::mount(alloc, &layout, tree, &mut names)?;
        let boot = core_constants(alloc, &mut names)?;
        Ok(View {
            names,
            layout,
            scan,
            boot,
        })
    }

    /// Whether no file is visible.
    pub fn is_empty(&self) -> bool
        ensures { (layout : Shown) (tree : Files) → IsView layout tree self.now →
            result ≡ (length (visible_files layout tree) == 0) }
    {
        self.scan.claims().is_empty()
    }

    /// The line that tells what the file at the path is expected to define.
    pub fn expect(&mut self, alloc: Global, path: &Path) -> Result<String, AllocError>
        requires { IsNamed self.old }
        ensures named { IsNamed self.new }
        ensures kept { (layout : Shown) (tree : Files) → IsView layout tree self.old → IsView layout tree self.new }
        ensures told { IfOk result (λ line. (layout : Shown) (tree : Files) → IsView layout tree self.old →
            string_bytes line ≡ defined.expect_line (expected_of layout tree path.now)) }
    {
        match expected(alloc, &self.layout, &self.scan, path, &mut self.names) {
            Ok(None) => String::from_str(alloc, "- none"),
            Ok(Some(constant)) => expected_line(alloc, &constant, &self.names),
            Err(Fault::Refused(wrong)) => wrong_name_line(alloc, wrong, &self.names),
            Err(Fault::Memory) => Err(AllocError),
        }
    }

    /// The lines of the map, in map order.
    pub fn map(&self, alloc: Global) -> Result<Vec<String>, AllocError>
        requires { IsNamed self.now }
        ensures { IfOk result (λ lines. (layout : Shown) (tree : Files) (setting : Setting) →
            IsView layout tree self.now → map string_bytes lines.items
            ≡ map defined.key_line (map_of layout tree (boot_of (core_world setting)))) }
    {
        let rows = keys(alloc, &self.scan, &self.boot, &self.names)?;
        key_lines(alloc, &rows, &self.names)
    }

    /// The lines of the files that no key loads, in path order.
    pub fn shadows(&self, alloc: Global) -> Result<Vec<String>, AllocError>
        requires { IsNamed self.now }
        ensures { IfOk result (λ lines. (layout : Shown) (tree : Files) (setting : Setting) →
            IsView layout tree self.now → map string_bytes lines.items
            ≡ map defined.shadow_line (shadowed layout tree (boot_of (core_world setting)))) }
    {
        let rows = shadows(alloc, &self.scan, &self.boot, &self.names)?;
        shadow_lines(alloc, &rows, &self.names)
    }

    /// The text of the first root's namespace that leads to no module of that very name, if there is one.
    pub fn stray_namespace(&self, alloc: Global) -> Result<Option<String>, AllocError>
        requires { IsNamed self.now }
        ensures { IfOk result (λ text. (layout : Shown) (tree : Files) (setting : Setting) →
            IsView layout tree self.now →
            option_map string_bytes text
            ≡ option_map (λ root. constant_path_text root.namespace)
            (find (λ root. not (leads (core_world setting) root.namespace)) layout.roots)) }
    {
        for root in &self.layout.roots {
            if !self.leads(&root.namespace) {
                return Ok(Some(root.namespace.text(alloc, &self.names)?));
            }
        }
        Ok(None)
    }

    /// Whether the path leads to a module of that very name.
    fn leads(&self, path: &CPath) -> bool
        requires view { IsNamed self.now }
        requires path { AreNamed self.now.names path.now }
        ensures { (layout : Shown) (tree : Files) (setting : Setting) → IsView layout tree self.now →
            result ≡ leads (core_world setting) (texts_of self.now.names path.now) }
    {
        self.names.are_distinct();
        is_module(&self.boot, path)
    }
}
