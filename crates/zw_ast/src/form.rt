//! Nodes of forms: interpolations, clauses, methods, classes and modules. Section numbers are those of ISO/IEC 30170.
ghost use Rattle.std.specs.Prelude.{◌≡◌, ◌≤◌, IfOk, length, map, string_bytes};
ghost use Rattle.zw_def_syntax.specs.Compound as c;
ghost use Rattle.zw_def_syntax.specs.Expression as e;
ghost use Rattle.zw_def_syntax.specs.Tree as t;
ghost use Rattle.zw_ast.specs.Gives.{Gives};
ghost use Rattle.zw_ast.specs.Grown.{grown_seen, all_seen, row_seen};
ghost use Rattle.zw_ast.specs.Named.{IsName, IsNamed, AreNamed, AreNames, greatest, after_method, all, bound_of, rescue_names, default_names, part_names, if_any, all_names};
ghost use Rattle.zw_ast.specs.Node.{name_seen, method_seen};
ghost use Rattle.zw_ast.specs.Part.{segment_seen, clause_seen, clauses_seen, optional_seen, params_seen, path_seen, branch_seen, superclass_seen, rescues_row_seen, defaults_row_seen, branch_row_seen, parts_row_seen, segment_names, clause_names, clauses_names, optional_names, params_names, path_names, branch_names, perhaps_row_seen, superclass_names};

use crate::grown::{Built, Grown, MakeFault};
use crate::maker::Maker;
use crate::node::{Base, Default, MethodName, Node, Part, Rescue};
use crate::part::{Clauses, ConstantPath, Optional, Params, RescueClause, Segment};
use sqlite_items::{Boxed, Items};
use std::alloc::AllocError;
use zw_names::Name;

impl<'t> Maker<'t> {
    #[inline(never)]
    fn rescues(&self, clauses: Vec<RescueClause>) -> Result<Grown<Items<Rescue<Node>>>, AllocError>
        ensures told { IfOk result
            (λ g. c.rescues_of (map (clause_seen self.now.names.now) clauses.items) ≡
            rescues_row_seen self.now.names.now g) }
        ensures named { IfOk result
            (λ g. greatest rescue_names g.form ≡ greatest clause_names clauses.items) }
    {
        let mut rescues = Items::new(self.alloc);
        let mut height = 0u8;
        'clauses: for clause in clauses {
            let paths = self.row(clause.paths)?;
            let body = self.row(clause.body)?;
            height = height.max(paths.height.max(body.height));
            rescues.push(Rescue {
                paths: paths.form,
                variable: clause.variable,
                body: body.form,
            })?;
        }
        Ok(Grown {
            form: rescues,
            height,
        })
    }

    #[inline(never)]
    fn defaults(&self, optional: Vec<Optional>) -> Result<Grown<Items<Default<Node>>>, AllocError>
        ensures told { IfOk result
            (λ g. c.defaults_of (map (optional_seen self.now.names.now) optional.items) ≡
            defaults_row_seen self.now.names.now g) }
        ensures named { IfOk result
            (λ g. greatest default_names g.form ≡ greatest optional_names optional.items) }
    {
        let mut defaults = Items::new(self.alloc);
        let mut height = 0u8;
        'optional: for one in optional {
            height = height.max(one.value.height);
            defaults.push(Default {
                name: one.name,
                value: one.value.form.into_inner(),
            })?;
        }
        Ok(Grown {
            form: defaults,
            height,
        })
    }

    #[inline(never)]
    fn branch(&self, branch: Option<Vec<Built>>) -> Result<Grown<Option<Items<Node>>>, AllocError>
        ensures told { IfOk result
            (λ g. c.branch_of (branch_seen self.now.names.now branch)
            ≡ branch_row_seen self.now.names.now g) }
        ensures named { IfOk result (λ g. if_any all_names g.form ≡ branch_names branch) }
    {
        match branch {
            None => Ok(Grown {
                form: None,
                height: 0,
            }),
            Some(all) => {
                let row = self.row(all)?;
                Ok(Grown {
                    form: Some(row.form),
                    height: row.height,
                })
            }
        }
    }

    /// A body with clauses (11.5.2.5).
    #[inline(never)]
    pub fn clauses(&self, clauses: Clauses) -> Result<Built, MakeFault>
        requires named { clauses_names clauses ≤ length self.now.names.now }
        ensures told { Gives (grown_seen self.now.names.now)
            (c.clauses_tree (clauses_seen self.now.names.now clauses)) result }
        ensures named { IfOk result (IsNamed self.now.names.now) }
    {
        let body = self.row(clauses.body)?;
        let rescues = self.rescues(clauses.rescues)?;
        let other = self.branch(clauses.other)?;
        let ensured = self.branch(clauses.ensured)?;
        let height = body
            .height
            .max(rescues.height)
            .max(other.height)
            .max(ensured.height);
        self.raise(
            Node::Begin(body.form, rescues.form, other.form, ensured.form),
            height,
        )
    }

    #[inline(never)]
    fn parts(
        &self,
        segments: Vec<Segment>,
        last: String,
    ) -> Result<Grown<Items<Part<Node>>>, AllocError>
        ensures told { IfOk result (λ g.
            e.parts_of (map (segment_seen self.now.names.now) segments.items) (string_bytes last)
            ≡ parts_row_seen self.now.names.now g) }
        ensures named { IfOk result
            (λ g. greatest part_names g.form ≡ greatest segment_names segments.items) }
    {
        let mut parts = Items::new(self.alloc);
        let mut height = 0u8;
        'segments: for segment in segments {
            let program = self.row(segment.program)?;
            height = height.max(program.height);
            parts.push(Part::Text(segment.text))?;
            parts.push(Part::Program(program.form))?;
        }
        parts.push(Part::Text(last))?;
        Ok(Grown {
            form: parts,
            height,
        })
    }

    /// A text with interpolations: each with the text before it, and the last text (8.7.6.3).
    #[inline(never)]
    pub fn interpolation(&self, segments: Vec<Segment>, last: String) -> Result<Built, MakeFault>
        requires named { greatest segment_names segments.items ≤ length self.now.names.now }
        ensures told { Gives (grown_seen self.now.names.now)
            (t.over t.interp_node
            (e.parts_of (map (segment_seen self.now.names.now) segments.items) (string_bytes last))) result }
        ensures named { IfOk result (IsNamed self.now.names.now) }
    {
        let parts = self.parts(segments, last)?;
        self.raise(Node::Interp(parts.form), parts.height)
    }

    /// `begin .. end` (11.5.2.5).
    pub fn begin_form(&self, clauses: Clauses) -> Result<Built, MakeFault>
        requires named { clauses_names clauses ≤ length self.now.names.now }
        ensures told { Gives (grown_seen self.now.names.now)
            (c.begin_tree (clauses_seen self.now.names.now clauses)) result }
        ensures named { IfOk result (IsNamed self.now.names.now) }
    {
        if clauses.is_bare() {
            self.sequence(clauses.body)
        } else {
            self.clauses(clauses)
        }
    }

    // The statements of a method, or one node with its clauses.
    #[inline(never)]
    fn method_body(&self, clauses: Clauses) -> Result<Grown<Items<Node>>, MakeFault>
        requires named { clauses_names clauses ≤ length self.now.names.now }
        ensures told { Gives (row_seen self.now.names.now)
            (c.method_body (clauses_seen self.now.names.now clauses)) result }
        ensures named { IfOk result (λ g. all_names g.form ≤ length self.now.names.now) }
    {
        if clauses.is_bare() {
            return Ok(self.row(clauses.body)?);
        }
        let whole = self.clauses(clauses)?;
        let mut body = Items::new(self.alloc);
        body.push(whole.form.into_inner())?;
        Ok(Grown {
            form: body,
            height: whole.height,
        })
    }

    /// A method, of `self` or not (13.3.1 and 13.4.3).
    #[inline(never)]
    pub fn method(
        &self,
        on_self: bool,
        name: MethodName,
        params: Params,
        clauses: Clauses,
    ) -> Result<Built, MakeFault>
        requires name { after_method name ≤ length self.now.names.now }
        requires params { params_names params ≤ length self.now.names.now }
        requires clauses { clauses_names clauses ≤ length self.now.names.now }
        ensures told { Gives (grown_seen self.now.names.now)
            (c.def_tree on_self (method_seen self.now.names.now name)
            (record { params = params_seen self.now.names.now params; clauses = clauses_seen self.now.names.now clauses })) result }
        ensures named { IfOk result (IsNamed self.now.names.now) }
    {
        let body = self.method_body(clauses)?;
        let defaults = self.defaults(params.optional)?;
        let height = defaults.height.max(body.height);
        let required = Items::from_vec(params.required);
        if on_self {
            self.raise(Node::SDef(name, required, defaults.form, body.form), height)
        } else {
            self.raise(Node::Def(name, required, defaults.form, body.form), height)
        }
    }

    #[inline(never)]
    fn boxed(&self, node: Option<Built>) -> Result<Grown<Option<Boxed<Node>>>, AllocError>
        ensures told { IfOk result
            (λ g. superclass_seen self.now.names.now node ≡ perhaps_row_seen self.now.names.now g) }
        ensures named { IfOk result (λ g. if_any bound_of g.form ≡ superclass_names node) }
    {
        match node {
            None => Ok(Grown {
                form: None,
                height: 0,
            }),
            Some(node) => Ok(Grown {
                height: node.height,
                form: Some(node.form),
            }),
        }
    }

    /// A class, with its superclass where one is given (13.2.2).
    #[inline(never)]
    pub fn class(
        &self,
        path: ConstantPath,
        superclass: Option<Built>,
        body: Vec<Built>,
    ) -> Result<Built, MakeFault>
        requires path { path_names path ≤ length self.now.names.now }
        requires superclass { superclass_names superclass ≤ length self.now.names.now }
        requires body { AreNamed self.now.names.now body.items }
        ensures told { Gives (grown_seen self.now.names.now) (c.class_tree (path_seen self.now.names.now path)
            (superclass_seen self.now.names.now superclass) (all_seen self.now.names.now body.items)) result }
        ensures named { IfOk result (IsNamed self.now.names.now) }
    {
        let above = self.boxed(superclass)?;
        let body = self.row(body)?;
        let height = path.base.height.max(above.height).max(body.height);
        self.raise(
            Node::Class(path.base.form, path.name, above.form, body.form),
            height,
        )
    }

    /// A module (13.1.2).
    #[inline(never)]
    pub fn module(&self, path: ConstantPath, body: Vec<Built>) -> Result<Built, MakeFault>
        requires path { path_names path ≤ length self.now.names.now }
        requires body { AreNamed self.now.names.now body.items }
        ensures told { Gives (grown_seen self.now.names.now)
            (c.module_tree (path_seen self.now.names.now path) (all_seen self.now.names.now body.items))
            result }
        ensures named { IfOk result (IsNamed self.now.names.now) }
    {
        let body = self.row(body)?;
        let height = path.base.height.max(body.height);
        self.raise(Node::Module(path.base.form, path.name, body.form), height)
    }

    /// The path of a constant as a node (11.5.4.2).
    pub fn path(&self, path: ConstantPath) -> Result<Built, MakeFault>
        requires named { path_names path ≤ length self.now.names.now }
        ensures told { Gives (grown_seen self.now.names.now) (c.path_node (path_seen self.now.names.now path))
            result }
        ensures named { IfOk result (IsNamed self.now.names.now) }
    {
        let ConstantPath { base, name } = path;
        let Grown { form, height } = base;
        match form {
            Base::Innermost => self.raise(Node::Const(name), height),
            Base::Topmost => self.raise(Node::TopConst(name), height),
            Base::Within(base) => self.raise(Node::Scoped(base, name), height),
        }
    }
}
