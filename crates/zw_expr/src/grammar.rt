//! What the rules of the grammar stand on: what makes nodes, and what reads the forms that stand within others. The
//! latter is a parameter, so that each rule is proved by itself.
ghost use Rattle.std.specs.Prelude.{◌≡◌, IfOk};
ghost use Rattle.zw_def_syntax.specs.Grammar.{within};
ghost use Rattle.zw_ast.specs.Grown.{grown_seen, all_seen};
ghost use Rattle.zw_ast.specs.Named.{IsNamed, AreNamed};
ghost use Rattle.zw_expr.specs.Nests.{Nests, form_seen};
ghost use Rattle.zw_expr.specs.Reads.{Reads};

use crate::cursor::Cursor;
use zw_ast::{Built, MakeFault, Maker};

/// The forms that stand within others (ISO/IEC 30170, 11 and 12).
#[derive(Clone, Copy, Debug, PartialEq, Eq)]
pub enum Form {
    Line,
    Inverse,
    Value,
    Ternary,
    Unary,
}

/// What stands within a form.
#[derive(Clone, Copy, Debug, PartialEq, Eq)]
pub enum Within {
    Tree(Form),
    Program,
}

/// What was read there.
#[derive(Drop)]
pub enum Read {
    Tree(Built),
    /// The statements of a program.
    Program(Vec<Built>),
}

/// Rules, which read what stands within their forms by `inner`, no deeper than `depth`.
#[derive(Clone, Copy)]
pub struct Grammar<'t, F> {
    pub maker: Maker<'t>,
    pub depth: usize,
    pub inner: F,
}

impl<'t, F: Fn(Maker<'t>, &mut Cursor<'t>, usize, Within) -> Result<Read, MakeFault>> Grammar<
    't,
    F,
> {
    /// Reads a form that stands within another.
    pub fn tree(&self, tokens: &mut Cursor<'t>, form: Form) -> Result<Built, MakeFault>
        requires nests { Nests self.now.maker.names.now self.now.depth (F.pre self.now.inner) (F.post self.now.inner) }
        requires same { tokens.old.names ≡ self.now.maker.names.now }
        ensures reads { Reads (grown_seen self.now.maker.names.now) ((within self.now.depth).tree (form_seen form))
            tokens.old.input result tokens.new.input }
        ensures same { tokens.new.names ≡ self.now.maker.names.now }
        ensures named { IfOk result (IsNamed self.now.maker.names.now) }
    {
        match (self.inner)(self.maker, tokens, self.depth, Within::Tree(form))? {
            Read::Tree(tree) => Ok(tree),
            Read::Program(_) => unreachable!(),
        }
    }

    /// Reads a program that stands within a form.
    pub fn program(&self, tokens: &mut Cursor<'t>) -> Result<Vec<Built>, MakeFault>
        requires nests { Nests self.now.maker.names.now self.now.depth (F.pre self.now.inner) (F.post self.now.inner) }
        requires same { tokens.old.names ≡ self.now.maker.names.now }
        ensures reads { Reads (λ all. all_seen self.now.maker.names.now all.items) (within self.now.depth).program
            tokens.old.input result tokens.new.input }
        ensures same { tokens.new.names ≡ self.now.maker.names.now }
        ensures named { IfOk result (λ all. AreNamed self.now.maker.names.now all.items) }
    {
        match (self.inner)(self.maker, tokens, self.depth, Within::Program)? {
            Read::Program(all) => Ok(all),
            Read::Tree(_) => unreachable!(),
        }
    }
}
