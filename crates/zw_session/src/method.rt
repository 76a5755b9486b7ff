//! Methods: those that programs define, and the one that answers a call (ISO/IEC 30170, 13.3).
ghost use Rattle.std.specs.Prelude.{◌≡◌, ◌<◌, ◌≤◌, ◌++◌, codes, List, IfOk, OnErr, Some, length, slice_get};
ghost use Rattle.zw_def_syntax.specs.Tree.{Tree as Node};
ghost use Rattle.zw_def_world.specs.Act.{Act};
ghost use Rattle.zw_def_world.specs.Value as told;
ghost use Rattle.zw_code.specs.Code.{told_code};
ghost use Rattle.zw_heap.specs.Heap.{sizes_of};
ghost use Rattle.zw_heap.specs.Sound.{IsIn};
ghost use Rattle.zw_heap.specs.declared.value.Value.TheVariants.{Module as ModuleValue};
ghost use Rattle.zw_session.specs.Acts.{calls_method, calls_next, defines_method, gives_symbol, name_told, runs_chosen};
ghost use Rattle.zw_session.specs.Sense.{Sense, Stands, world_of};
ghost use Rattle.zw_session.specs.Sound.{BodyIn, CodeIn};
ghost use Rattle.zw_session.specs.Step.{Steps, Keeps};

use crate::session::Session;
use std::alloc::AllocError;
use zw_code::{Code, Shared};
use zw_heap::{ModuleId, Value};
use zw_methods::{BodyId, Method, MethodFault};
use zw_names::Name;
use zw_ops::{Absent, Chosen, OpFault, Running, Written, choose_call, choose_super};

impl Session {
    /// The method that answers a call, or the exception that is raised.
    pub fn choose_call(
        &self,
        receiver: Value,
        name: Name,
        written: Written,
        absent: Absent,
    ) -> Result<Chosen, OpFault>
        requires receiver { IsIn (sizes_of self.now.heap) receiver }
        requires name { name.0 < length self.now.names }
        ensures steps { (go : Node → Act) (vs : List told.Value) → Steps self.now self.now
            (calls_method go written absent receiver name vs) (runs_chosen go written receiver vs) result }
    {
        choose_call(
            self.alloc,
            &self.heap,
            &self.methods,
            &self.names,
            receiver,
            name,
            written,
            absent,
        )
    }

    /// The method that `super` calls, or the exception that is raised.
    pub fn choose_super(&self, receiver: Value, running: Running) -> Result<Chosen, OpFault>
        requires receiver { IsIn (sizes_of self.now.heap) receiver }
        requires name { running.name.0 < length self.now.names }
        ensures steps { (go : Node → Act) (vs : List told.Value) → Steps self.now self.now
            (calls_next go receiver running vs) (runs_chosen go Written.AsSelf receiver vs) result }
    {
        choose_super(
            self.alloc,
            &self.heap,
            &self.methods,
            &self.names,
            receiver,
            running,
        )
    }

    /// Defines a method of the instances of a class or module, or of itself.
    pub fn define(
        &mut self,
        of: ModuleId,
        singleton: bool,
        name: Name,
        method: Method,
    ) -> Result<(), OpFault>
        requires of { IsIn (sizes_of self.old.heap) (ModuleValue of) }
        requires method { BodyIn (length self.old.names) (length self.old.bodies) method.body }
        ensures keeps { Keeps self.old self.new }
        ensures steps { Steps self.old self.new (defines_method of singleton name method)
            (λ x. gives_symbol name) result }
    {
        match self.methods.define(of, singleton, name, method, &self.heap) {
            Ok(()) => Ok(()),
            Err(MethodFault::Refused(_)) => Err(self.frozen(Value::Module(of))?),
            Err(MethodFault::Memory) => Err(OpFault::Memory),
        }
    }

    /// Keeps the code of a method.
    pub fn add_body(&mut self, code: Code) -> Result<BodyId, AllocError>
        requires { CodeIn (length self.old.names) (length self.old.heap.modules) code }
        ensures keeps { Keeps self.old self.new }
        ensures same { (J : Sense) → world_of J self.new ≡ world_of J self.old }
        ensures held { IfOk result (λ body. body.0 < length self.new.bodies) }
        ensures told { IfOk result (λ body. (J : Sense) → Stands J self.new
            → J.codes body.0 ≡ told_code J.names J.telling.module_id code) }
    {
        let body = BodyId(self.bodies.len());
        self.bodies.push(Shared::new(self.alloc, code)?)?;
        Ok(body)
    }

    /// The code of a body.
    pub fn code(&self, body: BodyId) -> Result<Shared<Code>, AllocError>
        requires { body.0 < length self.now.bodies }
        ensures { IfOk result (λ code. slice_get self.now.bodies body.0 ≡ Some code) }
    {
        self.bodies[body.0].share()
    }
}
