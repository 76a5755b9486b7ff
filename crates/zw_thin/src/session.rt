//! Sessions.
ghost use Rattle.std.specs.Prelude.{◌≡◌, Some, IfOk, map, option_map, string_bytes};
ghost use Rattle.zw_def_thin.specs.Built.{first_other};
ghost use Rattle.zw_def_thin.specs.Evaluation.{world_at, called};
ghost use Rattle.zw_def_thin.specs.Map.{visible};
ghost use Rattle.zw_base.specs.Fault.{IfRefused};
ghost use Rattle.zw_thin.specs.File.{file_seen};
ghost use Rattle.zw_thin.specs.ClassFile.{MethodsNamed};
ghost use Rattle.zw_thin.specs.Class.{classes_seen, open_seen, ClassesNamed};
ghost use Rattle.zw_thin.specs.Expression.{expression_seen};
ghost use Rattle.zw_thin.specs.Ending.{ending_seen, answer_seen, path_seen};
ghost use Rattle.zw_thin.specs.Held.{idle_file, path_of, after_load, file_used, after, answer_in, ending_in};
ghost use Rattle.zw_thin.specs.World.{StandsFor, Answers};

use crate::expression::{self, Ending, Expression, Value};
use crate::file::File;
use crate::keys::{Keys, make_names, take_file, take_in};
use crate::table::{Class, Classes, class_of, open, value_of};
use crate::words::Words;
use indexmap::IndexMap;
use std::alloc::{AllocError, Global};
use std::marker::Model;
use zw_base::Fault;
use zw_names::Names;
use zw_path::Path;

/// The path of the first visible file, in path order, that is not carried out so far.
#[derive(Debug, Drop)]
pub struct NotBuilt(pub Path);

/// Why there is no session: a file is not carried out, or there was no memory.
pub type SessionFault = Fault<NotBuilt>;

/// The constants of a tree. A clause sees what a session holds: its keys, and the classes that are set in Object, with
/// the texts of their names.
#[derive(Drop)]
pub struct Session {
    words: Words,
    names: Names,
    keys: Keys,
    classes: Classes,
}

impl Model for Session {
    ghost use Rattle.zw_thin.specs.Held.{Held};
    ghost use Rattle.zw_thin.specs.Key.{keys_seen, KeysNamed};
    ghost use Rattle.zw_thin.specs.Class.{classes_seen, ClassesNamed};

    ghost Value = { Held };

    ghost view = { λ s. record {
      keys = keys_seen s.names s.keys.entries;
      table = classes_seen s.names s.classes.entries;
    } };

    ghost invariant = { λ s. KeysNamed s.names s.keys.entries × ClassesNamed s.names s.classes.entries };
}

/// The class of a constant, after the file at the path, if there is one, was evaluated for it.
fn constant<'a>(
    names: &'a Names,
    classes: &'a Classes,
    path: Option<&'a Path>,
    name: &'a str,
) -> Result<Class<'a>, Ending<'a>>
    requires { ClassesNamed names.now classes.now.entries }
    ensures told { answer_seen names.now result
        ≡ answer_in (classes_seen names.now classes.now.entries) (path_seen path.entry) name.now }
    ensures named { IfOk result (λ c. MethodsNamed names.now c.methods.now) }
{
    match (class_of(names, classes, name), path) {
        (Some(class), _) => Ok(class),
        (None, Some(path)) => Err(Ending::NotDefined(path, name)),
        (None, None) => Err(Ending::NoConstant(name)),
    }
}

fn ending_of_call<'a>(names: &Names, class: Class<'a>, method: &'a str) -> Ending<'a>
    requires { MethodsNamed names.now class.methods.now }
    ensures { ending_seen result ≡ called method.now (open_seen names.now class.entry) }
{
    match value_of(names, class.methods, method) {
        Some(value) => Ending::Gave(Value::Number(value)),
        None => Ending::NoMethod(method, class.name),
    }
}

impl Session {
    /// The session of those of the files that lie below the root, where no constant is set yet.
    pub fn new(alloc: Global, root: &Path, files: &[File<'_>]) -> Result<Session, SessionFault>
        ensures ok { IfOk result (StandsFor (world_at root.now (map file_seen files.now))) }
        ensures refused { IfRefused result (λ other.
            first_other root.now (visible root.now (map file_seen files.now)) ≡ Some other.0) }
    {
        let words = Words::new();
        let mut names = Names::new(alloc)?;
        make_names(alloc, &mut names, root, files)?;
        let expected = names.len();
        let mut keys = IndexMap::new(alloc);
        for file in files {
            if !file.path.is_below(root) {
                continue;
            }
            if !take_in(alloc, &words, &mut names, expected, root, &mut keys, file)? {
                let path = file.path.copy(alloc)?;
                return Err(SessionFault::Refused(NotBuilt(path)));
            }
        }
        let classes = IndexMap::new(alloc);
        Ok(Session {
            words,
            names,
            keys,
            classes,
        })
    }

    /// Evaluates the file that is expected to define the constant, if it was not evaluated yet, and gives its path.
    fn load(&mut self, name: &str) -> Result<Option<Path>, AllocError>
        ensures path { IfOk result (λ path. path ≡ path_of (idle_file name.now self.old.keys)) }
        ensures state { IfOk result (λ _. self.new ≡ after_load name.now self.old) }
    {
        self.names.are_distinct();
        let Some(file) = take_file(&self.names, &mut self.keys, name) else {
            return Ok(None);
        };
        open(&mut self.classes, file.class)?;
        Ok(Some(file.path))
    }

    /// Evaluates the file that the expression needs.
    fn prepare(&mut self, expression: Expression<'_>) -> Result<Option<Path>, AllocError>
        ensures path { IfOk result (λ path. path ≡ path_of (file_used (expression_seen expression.entry) self.old)) }
        ensures state { IfOk result (λ _. self.new ≡ after (expression_seen expression.entry) self.old) }
    {
        match expression {
            Expression::Integer(_) => Ok(None),
            Expression::Constant(name) => self.load(name),
            Expression::Call(name, _) => self.load(name),
        }
    }

    /// How the expression ends, after the file at the path, if there is one, was evaluated for it.
    fn ending<'a>(&'a self, path: Option<&'a Path>, expression: Expression<'a>) -> Ending<'a>
        ensures { ending_seen result
            ≡ ending_in self.now.table (path_seen path.entry) (expression_seen expression.entry) }
    {
        let Session { names, classes, .. } = self;
        match expression {
            Expression::Integer(number) => Ending::Gave(Value::Number(number)),
            Expression::Constant(name) => match constant(names, classes, path, name) {
                Ok(class) => Ending::Gave(Value::Class(class.name)),
                Err(ending) => ending,
            },
            Expression::Call(name, method) => match constant(names, classes, path, name) {
                Ok(class) => ending_of_call(names, class, method),
                Err(ending) => ending,
            },
        }
    }

    /// Evaluates an expression, and gives the line that it answers. None where the expression is not built so far.
    /// After an error the session is spent.
    pub fn run(&mut self, alloc: Global, expression: &[u8]) -> Result<Option<String>, AllocError>
        ensures { IfOk result (λ line. Answers self.old self.new expression.now (option_map string_bytes line)) }
    {
        let Some(expression) = expression::read(&self.words, expression) else {
            return Ok(None);
        };
        let path = self.prepare(expression)?;
        let line = expression::line_of(alloc, self.ending(path.as_ref(), expression))?;
        Ok(Some(line))
    }
}
