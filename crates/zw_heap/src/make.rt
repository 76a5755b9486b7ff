//! What is made in a heap.
ghost use Rattle.std.specs.Prelude.{◌≡◌, ◌<◌, ◌≤◌, IfOk, OnOk, OnErr, None, Some, length, map};
ghost use Rattle.std.specs.List.{All};
ghost use Rattle.zw_base.specs.Fault.{IfRefused};
ghost use Rattle.zw_heap.specs.Heap.{with_object, with_module, with_text, with_array, nesting_in, nesting_of, sizes_of};
ghost use Rattle.zw_heap.specs.Refusal.{text_refusal, array_refusal};
ghost use Rattle.zw_heap.specs.Sound.{IsIn, KindIn, Stays};

use crate::array_record::ArrayRecord;
use crate::fault::{HeapFault, HeapRefusal};
use crate::heap::Heap;
use crate::module_record::ModuleRecord;
use crate::object_record::ObjectRecord;
use crate::value::{ArrayRef, ModuleId, ModuleKind, ObjRef, TextRef, Value};
use std::alloc::AllocError;
use zw_names::CPath;

/// The most bytes of a text.
const MAX_TEXT: usize = 1_048_576;

/// The most items of an array.
const MAX_ITEMS: usize = 65_536;

/// The most arrays that stand in one another.
const MAX_NESTING: usize = 100;

impl Heap {
    /// A new object of a class. It differs from all that were made before.
    pub fn make_object(&mut self, class: ModuleId) -> Result<ObjRef, AllocError>
        requires { class.0 < length self.old.modules }
        ensures number { IfOk result (λ made. made.0 ≡ length self.old.objects) }
        ensures made { OnOk result (self.new ≡ with_object class self.old) }
        ensures unchanged { OnErr result (self.new ≡ self.old) }
        ensures stays { Stays self.old self.new }
    {
        let number = self.objects.len();
        let count = self.places[self.here].count();
        let record = ObjectRecord::new(self.alloc, self.here, count, class);
        self.objects.push(record)?;
        self.places[self.here].add_one();
        Ok(ObjRef(number))
    }

    /// A new class or module with a path. It differs from all that were made before.
    pub fn make_module(&mut self, path: CPath, kind: ModuleKind) -> Result<ModuleId, AllocError>
        requires path { All (λ n. n < self.old.names) path }
        requires kind { KindIn (sizes_of self.old) kind }
        ensures number { IfOk result (λ made. made.0 ≡ length self.old.modules) }
        ensures made { OnOk result (self.new ≡ with_module path kind self.old) }
        ensures unchanged { OnErr result (self.new ≡ self.old) }
        ensures stays { Stays self.old self.new }
    {
        let number = self.modules.len();
        let count = self.places[self.here].count();
        let record = ModuleRecord::new(self.alloc, self.here, count, path, kind);
        self.modules.push(record)?;
        self.places[self.here].add_one();
        Ok(ModuleId(number))
    }

    /// A new text.
    pub fn make_text(&mut self, text: &str) -> Result<TextRef, HeapFault>
        ensures number { IfOk result (λ made. made.0 ≡ length self.old.texts) }
        ensures made { OnOk result (self.new ≡ with_text text.now self.old) }
        ensures fits { OnOk result (text_refusal text.now ≡ None) }
        ensures refused { IfRefused result (λ refusal. text_refusal text.now ≡ Some refusal) }
        ensures unchanged { OnErr result (self.new ≡ self.old) }
        ensures stays { Stays self.old self.new }
    {
        if text.len() > MAX_TEXT {
            return Err(HeapFault::Refused(HeapRefusal::TooLong));
        }
        let number = self.texts.len();
        self.texts.push(String::from_str(self.alloc, text)?)?;
        Ok(TextRef(number))
    }

    /// How many arrays stand in one another in a value.
    fn nesting_in(&self, item: Value) -> usize
        requires { IsIn (sizes_of self.now) item }
        ensures value { result ≡ nesting_in self.now.arrays item }
        ensures few { result ≤ 100 }
    {
        match item {
            Value::Array(array) => self.arrays[array.0].nesting(),
            _ => 0,
        }
    }

    /// How many arrays stand in one another in an array of these items.
    fn nesting_of(&self, items: &[Value]) -> usize
        requires { All (IsIn (sizes_of self.now)) items.now }
        ensures { result ≡ nesting_of self.now items.now }
    {
        let mut nesting = 1;
        for item in items {
            nesting = nesting.max(self.nesting_in(*item) + 1);
        }
        nesting
    }

    /// A new array.
    pub fn make_array(&mut self, items: &[Value]) -> Result<ArrayRef, HeapFault>
        requires { All (IsIn (sizes_of self.old)) items.now }
        ensures number { IfOk result (λ made. made.0 ≡ length self.old.arrays) }
        ensures made { OnOk result (self.new ≡ with_array items.now self.old) }
        ensures fits { OnOk result (array_refusal self.old items.now ≡ None) }
        ensures refused { IfRefused result (λ refusal. array_refusal self.old items.now ≡ Some refusal) }
        ensures unchanged { OnErr result (self.new ≡ self.old) }
        ensures stays { Stays self.old self.new }
    {
        if items.len() > MAX_ITEMS {
            return Err(HeapFault::Refused(HeapRefusal::TooLong));
        }
        let nesting = self.nesting_of(items);
        if nesting > MAX_NESTING {
            return Err(HeapFault::Refused(HeapRefusal::TooDeep));
        }
        let number = self.arrays.len();
        self.arrays
            .push(ArrayRecord::new(self.alloc, items, nesting)?)?;
        Ok(ArrayRef(number))
    }
}
