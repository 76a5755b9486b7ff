//! Kinds of arguments.
ghost use Rattle.std.specs.Prelude.{◌≡◌, codes};
ghost use Rattle.zw_def_world.specs.Argument.{kind_text};
ghost use Rattle.zw_def_world.specs.Site.{is_of};
ghost use Rattle.zw_heap.specs.Telling.{Telling, tell};
ghost use Rattle.zw_calls.specs.Kind.{kind_seen};

use zw_heap::Value;

/// A kind of argument.
#[derive(Clone, Copy, Debug, PartialEq, Eq)]
pub enum Kind {
    Integer,
    String,
    Symbol,
    Array,
    Module,
    Any,
}

impl Kind {
    /// What it is called in a fault.
    pub fn name(&self) -> &'static str
        ensures { result.now ≡ codes (kind_text (kind_seen self.now)) }
    {
        match self {
            Kind::Integer => "Integer",
            Kind::String => "String",
            Kind::Symbol => "Symbol",
            Kind::Array => "Array",
            Kind::Module => "Module",
            Kind::Any => "Object",
        }
    }

    /// Whether a value is of the kind.
    pub fn has(&self, value: Value) -> bool
        ensures { (I : Telling) → result ≡ is_of (kind_seen self.now) (tell I value) }
    {
        match self {
            Kind::Integer => matches!(value, Value::Int(_)),
            Kind::String => matches!(value, Value::Text(_)),
            Kind::Symbol => matches!(value, Value::Sym(_)),
            Kind::Array => matches!(value, Value::Array(_)),
            Kind::Module => matches!(value, Value::Module(_)),
            Kind::Any => true,
        }
    }
}
