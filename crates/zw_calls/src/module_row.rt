//! The primitive methods of Module.
ghost use Rattle.std.specs.Prelude.{◌≡◌, option_map};
ghost use Rattle.std.specs.List.{find};
ghost use Rattle.zw_def_world.specs.Primitive.{module_rows};
ghost use Rattle.zw_calls.specs.Named.{is_named};
ghost use Rattle.zw_calls.specs.PrimSeen.{module_seen};
ghost use Rattle.zw_calls.specs.ModuleRow.{module_row_seen};

use zw_table::table;

/// A primitive method of Module (ISO/IEC 30170, 15.2.2), by its name.
#[derive(Clone, Copy, Debug, PartialEq, Eq)]
pub enum ModuleRow {
    Name,
    ToS,
    Inspect,
    Covers,
    Less,
    LessOrSame,
    Greater,
    GreaterOrSame,
    Ancestors,
    Include,
    Extend,
    Includes,
    AttrReader,
    AttrWriter,
    AttrAccessor,
    Private,
    Public,
    PrivateClassMethod,
    ConstGet,
    IsConstDefined,
    Autoload,
    IsMethodDefined,
}

impl ModuleRow {
    /// The method that has the name.
    pub fn named(name: &str) -> Option<ModuleRow>
        ensures { option_map module_seen result ≡ find (is_named name.now) module_rows }
    {
        let rows = table!(
            "<" => ModuleRow::Less,
            "<=" => ModuleRow::LessOrSame,
            "===" => ModuleRow::Covers,
            ">" => ModuleRow::Greater,
            ">=" => ModuleRow::GreaterOrSame,
            "ancestors" => ModuleRow::Ancestors,
            "attr_accessor" => ModuleRow::AttrAccessor,
            "attr_reader" => ModuleRow::AttrReader,
            "attr_writer" => ModuleRow::AttrWriter,
            "autoload?" => ModuleRow::Autoload,
            "const_defined?" => ModuleRow::IsConstDefined,
            "const_get" => ModuleRow::ConstGet,
            "extend" => ModuleRow::Extend,
            "include" => ModuleRow::Include,
            "include?" => ModuleRow::Includes,
            "inspect" => ModuleRow::Inspect,
            "method_defined?" => ModuleRow::IsMethodDefined,
            "name" => ModuleRow::Name,
            "private" => ModuleRow::Private,
            "private_class_method" => ModuleRow::PrivateClassMethod,
            "public" => ModuleRow::Public,
            "to_s" => ModuleRow::ToS,
        );
        rows.unwrap().find(name).copied()
    }

    /// Its name.
    pub fn name(&self) -> &'static str
        ensures { result.now ≡ (module_row_seen self.now).0 }
    {
        match self {
            ModuleRow::Name => "name",
            ModuleRow::ToS => "to_s",
            ModuleRow::Inspect => "inspect",
            ModuleRow::Covers => "===",
            ModuleRow::Less => "<",
            ModuleRow::LessOrSame => "<=",
            ModuleRow::Greater => ">",
            ModuleRow::GreaterOrSame => ">=",
            ModuleRow::Ancestors => "ancestors",
            ModuleRow::Include => "include",
            ModuleRow::Extend => "extend",
            ModuleRow::Includes => "include?",
            ModuleRow::AttrReader => "attr_reader",
            ModuleRow::AttrWriter => "attr_writer",
            ModuleRow::AttrAccessor => "attr_accessor",
            ModuleRow::Private => "private",
            ModuleRow::Public => "public",
            ModuleRow::PrivateClassMethod => "private_class_method",
            ModuleRow::ConstGet => "const_get",
            ModuleRow::IsConstDefined => "const_defined?",
            ModuleRow::Autoload => "autoload?",
            ModuleRow::IsMethodDefined => "method_defined?",
        }
    }
}
