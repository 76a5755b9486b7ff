//! The primitive methods of Kernel.
ghost use Rattle.std.specs.Prelude.{◌≡◌, option_map};
ghost use Rattle.std.specs.List.{find};
ghost use Rattle.zw_def_world.specs.Primitive.{kernel_rows};
ghost use Rattle.zw_calls.specs.Named.{is_named};
ghost use Rattle.zw_calls.specs.PrimSeen.{kernel_seen};
ghost use Rattle.zw_calls.specs.KernelRow.{kernel_row_seen};

use zw_table::table;

/// A primitive method of Kernel (ISO/IEC 30170, 15.3.1), by its name.
#[derive(Clone, Copy, Debug, PartialEq, Eq)]
pub enum KernelRow {
    Puts,
    Raise,
    Class,
    IsNil,
    Equal,
    Differs,
    IsSame,
    IsA,
    IsInstanceOf,
    RespondsTo,
    ToS,
    Inspect,
    Freeze,
    IsFrozen,
}

impl KernelRow {
    /// The method that has the name.
    pub fn named(name: &str) -> Option<KernelRow>
        ensures { option_map kernel_seen result ≡ find (is_named name.now) kernel_rows }
    {
        let rows = table!(
            "!=" => KernelRow::Differs,
            "==" => KernelRow::Equal,
            "class" => KernelRow::Class,
            "equal?" => KernelRow::IsSame,
            "freeze" => KernelRow::Freeze,
            "frozen?" => KernelRow::IsFrozen,
            "inspect" => KernelRow::Inspect,
            "instance_of?" => KernelRow::IsInstanceOf,
            "is_a?" => KernelRow::IsA,
            "nil?" => KernelRow::IsNil,
            "puts" => KernelRow::Puts,
            "raise" => KernelRow::Raise,
            "respond_to?" => KernelRow::RespondsTo,
            "to_s" => KernelRow::ToS,
        );
        rows.unwrap().find(name).copied()
    }

    /// Its name.
    pub fn name(&self) -> &'static str
        ensures { result.now ≡ (kernel_row_seen self.now).0 }
    {
        match self {
            KernelRow::Puts => "puts",
            KernelRow::Raise => "raise",
            KernelRow::Class => "class",
            KernelRow::IsNil => "nil?",
            KernelRow::Equal => "==",
            KernelRow::Differs => "!=",
            KernelRow::IsSame => "equal?",
            KernelRow::IsA => "is_a?",
            KernelRow::IsInstanceOf => "instance_of?",
            KernelRow::RespondsTo => "respond_to?",
            KernelRow::ToS => "to_s",
            KernelRow::Inspect => "inspect",
            KernelRow::Freeze => "freeze",
            KernelRow::IsFrozen => "frozen?",
        }
    }
}
