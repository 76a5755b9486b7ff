//! Frames.
ghost use Rattle.std.specs.Prelude.{◌≡◌, ◌<◌, ◌≤◌, [], ◌∷◌, ◌++◌, ◌&&◌, List, IfOk, IfSome, OnOk, OnErr, length, map, true};
ghost use Rattle.std.specs.List.{All};
ghost use Rattle.std.specs.Option.{option_map};
ghost use Rattle.zw_def.specs.Text.{Text};
ghost use Rattle.zw_def_world.specs.Call.{method_frame};
ghost use Rattle.zw_def_world.specs.Control.{values_at};
ghost use Rattle.zw_def_world.specs.Definition.{body_frame};
ghost use Rattle.zw_def_world.specs.Frame.{console_frame, innermost_scope, top_frame, with_local};
ghost use Rattle.zw_def_world.specs.ModuleRows.{hides_here};
ghost use Rattle.zw_def_world.specs.Table.{at};
ghost use Rattle.zw_heap.specs.Heap.{Held, sizes_of};
ghost use Rattle.zw_heap.specs.Sound.{EntryIn, IsIn};
ghost use Rattle.zw_heap.specs.declared.mark.Sizes.{Sizes};
ghost use Rattle.zw_heap.specs.Telling.{Telling, Fits, tell, told_ids, told_variables};
ghost use Rattle.zw_heap.specs.declared.value.Value.TheVariants.{Module as ModuleValue};
ghost use Rattle.zw_code.specs.Code.{code_names, told_code};
ghost use Rattle.zw_frames.specs.Frame.{FrameIn, frame_told, plain_frame, AreTold, CodeNamed};
ghost use Rattle.zw_frames.specs.Locals.{value_or_nil};
ghost use Rattle.zw_ops.specs.Choice.{told_running};

use crate::locals::Locals;
use std::alloc::{AllocError, Global};
use zw_ast::{Default, Node};
use zw_code::{Code, Scopes, Shared};
use zw_heap::{CoreClass, Heap, ModuleId, Value};
use zw_names::Name;
use zw_ops::Running;

/// Where an evaluation stands: the receiver, the scopes, the variables and the running method.
#[derive(Drop)]
pub struct Frame {
    pub self_value: Value,
    pub scopes: Scopes,
    pub locals: Locals,
    /// The session's own frame.
    pub is_console: bool,
    /// The frame of a class or module body, and whether its methods are private now.
    pub is_body: bool,
    pub hides: bool,
    pub running: Option<Running>,
    /// The code of the running method, whose parameters `super` passes on.
    pub code: Option<Shared<Code>>,
}

impl Frame {
    /// The frame of no method, with these scopes.
    fn with_scopes(self_value: Value, scopes: Scopes, locals: Locals) -> Frame
        ensures { result ≡ plain_frame self_value scopes locals }
    {
        Frame {
            self_value,
            scopes,
            locals,
            is_console: false,
            is_body: false,
            hides: false,
            running: None,
            code: None,
        }
    }

    /// The frame at top level: `self` is `main`, and there are no scopes.
    pub fn top(alloc: Global, heap: &Heap, locals: Locals) -> Result<Frame, AllocError>
        requires { All (EntryIn (sizes_of heap.now)) locals }
        ensures held { IfOk result (FrameIn (sizes_of heap.now)) }
        ensures top { IfOk result (λ frame. (I : Telling) (names : List Text) → Fits I names heap.now
            → frame_told I names frame ≡ top_frame (told_variables I locals)) }
    {
        heap.tells_core();
        let scopes = Shared::new(alloc, Vec::new(alloc))?;
        Ok(Frame::with_scopes(Value::Object(heap.main()), scopes, locals))
    }

    /// The session's own frame.
    pub fn console(alloc: Global, heap: &Heap, variables: Locals) -> Result<Frame, AllocError>
        requires { All (EntryIn (sizes_of heap.now)) variables }
        ensures held { IfOk result (FrameIn (sizes_of heap.now)) }
        ensures console { IfOk result (λ frame. (I : Telling) (names : List Text) → Fits I names heap.now
            → frame_told I names frame ≡ console_frame (told_variables I variables)) }
    {
        let mut frame = Frame::top(alloc, heap, variables)?;
        frame.is_console = true;
        Ok(frame)
    }

    /// The frame of a class or module body (ISO/IEC 30170, 13.1.2 and 13.2.2).
    pub fn of_body(alloc: Global, of: ModuleId, scopes: &Scopes) -> Result<Frame, AllocError>
        ensures held { (s : Sizes) → of.0 < s.modules → All (λ m. m.0 < s.modules) scopes.now.items
            → IfOk result (FrameIn s) }
        ensures body { IfOk result (λ frame. (I : Telling) (names : List Text)
            → frame_told I names frame ≡ body_frame (I.module_id of.0) (told_ids I scopes.now.items)) }
    {
        let outer = scopes.get();
        let mut inner = Vec::with_capacity(alloc, outer.len())?;
        inner.push(of)?;
        for scope in outer {
            inner.push(*scope)?;
        }
        let mut frame = Frame::with_scopes(
            Value::Module(of),
            Shared::new(alloc, inner)?,
            Locals::new(alloc),
        );
        frame.is_body = true;
        Ok(frame)
    }

    /// The frame of a method that runs, with its required parameters (13.3.3).
    pub fn of_method(
        alloc: Global,
        receiver: Value,
        running: Running,
        code: &Shared<Code>,
        values: &[Value],
    ) -> Result<Frame, AllocError>
        ensures held { (s : Sizes) → IsIn s receiver → running.name.0 < s.names → code_names code.now ≤ s.names
            → All (λ m. m.0 < s.modules) code.now.scopes.items → All (IsIn s) values.now → IfOk result (FrameIn s) }
        ensures method { IfOk result (λ frame. (I : Telling) (names : List Text) → AreTold I names
            → code_names code.now ≤ length names → frame_told I names frame
            ≡ method_frame (tell I receiver) (told_running I running) (told_code names I.module_id code.now)
            (map (tell I) values.now)) }
    {
        let method = code.get();
        let locals = Locals::of_arguments(alloc, method.required.as_slice(), values)?;
        let mut frame = Frame::with_scopes(receiver, method.scopes.share()?, locals);
        frame.running = Some(running);
        frame.code = Some(code.share()?);
        Ok(frame)
    }

    /// The value of a variable, if it was set.
    pub fn get(&self, name: Name) -> Option<Value>
        ensures held { (s : Sizes) → FrameIn s self.now → IfSome result (IsIn s) }
        ensures value { (I : Telling) (names : List Text)
            → at (I.name name.0) (frame_told I names self.now).locals ≡ option_map (tell I) result }
    {
        self.locals.get(name)
    }

    /// Sets a variable.
    pub fn set(&mut self, name: Name, value: Value) -> Result<(), AllocError>
        ensures held { (s : Sizes) → FrameIn s self.old → name.0 < s.names → IsIn s value → FrameIn s self.new }
        ensures set { OnOk result ((I : Telling) (names : List Text)
            → frame_told I names self.new ≡ with_local (I.name name.0) (tell I value) (frame_told I names self.old)) }
        ensures unchanged { OnErr result (self.new ≡ self.old) }
    {
        self.locals.set(name, value)?;
        Ok(())
    }

    /// Whether methods that are defined now are private: in a body alone (15.2.2.4.30 and 15.2.2.4.38).
    pub fn hides_here(&self) -> bool
        ensures { (I : Telling) (names : List Text) → hides_here (frame_told I names self.now) ≡ result }
    {
        self.is_body && self.hides
    }

    /// Sets whether methods that a body defines are private from now on.
    pub fn hide(&mut self, hidden: bool)
        ensures held { (s : Sizes) → FrameIn s self.old → FrameIn s self.new }
        ensures hides { (I : Telling) (names : List Text) → frame_told I names self.new
            ≡ record (frame_told I names self.old) { hides = self.old.is_body && hidden } }
    {
        self.hides = self.is_body && hidden;
    }

    /// The innermost scope: `Object` where there is no other.
    pub fn innermost(&self, heap: &Heap) -> ModuleId
        ensures held { FrameIn (sizes_of heap.now) self.now → IsIn (sizes_of heap.now) (ModuleValue result) }
        ensures scope { (I : Telling) (names : List Text) → Fits I names heap.now
            → innermost_scope (frame_told I names self.now).scopes ≡ I.module_id result.0 }
    {
        heap.tells_core();
        match self.scopes.get().first() {
            Some(scope) => *scope,
            None => heap.core(CoreClass::Object),
        }
    }

    /// The value of a variable: nil where it was not set.
    fn value(&self, name: Name) -> Value
        ensures { result ≡ value_or_nil self.now.locals name }
    {
        self.locals.get(name).unwrap_or(Value::Nil)
    }

    /// Adds the values of required parameters.
    fn push_required(&self, names: &[Name], values: &mut Vec<Value>) -> Result<(), AllocError>
        ensures { OnOk result (values.new.items
            ≡ values.old.items ++ map (value_or_nil self.now.locals) names.now) }
    {
        for name in names {
            values.push(self.value(*name))?;
        }
        Ok(())
    }

    /// Adds the values of optional parameters.
    fn push_optional(
        &self,
        parameters: &[Default<Node>],
        values: &mut Vec<Value>,
    ) -> Result<(), AllocError>
        ensures { OnOk result (values.new.items
            ≡ values.old.items ++ map (λ d. value_or_nil self.now.locals d.name) parameters.now) }
    {
        for parameter in parameters {
            values.push(self.value(parameter.name))?;
        }
        Ok(())
    }

    /// The values of the running method's parameters: nil where one has none.
    pub fn parameter_values(&self, alloc: Global) -> Result<Vec<Value>, AllocError>
        ensures held { (s : Sizes) → FrameIn s self.now → IfOk result (λ values. All (IsIn s) values.items) }
        ensures values { IfOk result (λ values. (I : Telling) (names : List Text) → AreTold I names
            → CodeNamed (length names) self.now.code → values_at (frame_told I names self.now).locals
            (frame_told I names self.now).parameters ≡ map (tell I) values.items) }
    {
        let mut values = Vec::new(alloc);
        let Some(code) = &self.code else {
            return Ok(values);
        };
        let code = code.get();
        self.push_required(code.required.as_slice(), &mut values)?;
        self.push_optional(code.optional.as_slice(), &mut values)?;
        Ok(values)
    }
}
