//! Programs as texts. A statement is shown with its line before it, a node by its kind: `$x` is a variable, `x` a name
//! that may be one, `x(a b)` a call on `self`, `r.x(a b)` one with a receiver, `!(a)` an inversion, `(a and b)` and
//! `(x = a)` what they say, `{a b}` a row of statements, and `if'` and `while'` those with a modifier.
use sqlite_items::Items;
use std::alloc::{AllocError, Global};
use zw_ast::{Base, Default, MethodName, Node, Order, Part, Program, Rescue};
use zw_names::{Name, Names};

// A page that is written on.
#[derive(Drop)]
struct Page<'n> {
    alloc: Global,
    names: &'n Names,
    text: String,
}

impl<'n> Page<'n> {
    fn put(&mut self, text: &str) -> Result<(), AllocError> {
        self.text.push_str(text)
    }

    fn put_name(&mut self, front: &str, name: Name, back: &str) -> Result<(), AllocError> {
        self.put(front)?;
        if name.0 < self.names.len() {
            self.put(self.names.text(name))?;
        }
        self.put(back)
    }

    fn put_space(&mut self, place: usize) -> Result<(), AllocError> {
        if place > 0 { self.put(" ") } else { Ok(()) }
    }

    fn put_method(&mut self, name: MethodName) -> Result<(), AllocError> {
        match name {
            MethodName::Named(name) => self.put_name("", name, ""),
            MethodName::Setter(name) => self.put_name("", name, "="),
        }
    }

    fn put_number(&mut self, number: i64) -> Result<(), AllocError> {
        let text = format!(in self.alloc; "{number}")?;
        self.put(&text)
    }

    // Nodes that have no parts.
    fn put_leaf(&mut self, node: &Node) -> Result<(), AllocError> {
        match node {
            Node::Nil => self.put("nil"),
            Node::True => self.put("true"),
            Node::False => self.put("false"),
            Node::SelfNode => self.put("self"),
            Node::Int(number) => self.put_number(*number),
            Node::Sym(name) => self.put_name(":", *name, ""),
            Node::Local(name) => self.put_name("$", *name, ""),
            Node::Ident(name) | Node::Const(name) => self.put_name("", *name, ""),
            Node::InstanceVariable(name) => self.put_name("@", *name, ""),
            Node::ClassVariable(name) => self.put_name("@@", *name, ""),
            Node::TopConst(name) => self.put_name("::", *name, ""),
            Node::ZSuper => self.put("super"),
            Node::Break => self.put("break"),
            Node::Next => self.put("next"),
            _ => Ok(()),
        }
    }

    #[cycle(show)]
    fn put_row(&mut self, front: &str, nodes: &[Node], back: &str) -> Result<(), AllocError> {
        self.put(front)?;
        'nodes: for place in 0..nodes.len() {
            self.put_space(place)?;
            self.put_node(&nodes[place])?;
        }
        self.put(back)
    }

    #[cycle(show)]
    fn put_parts(&mut self, parts: &[Part<Node>]) -> Result<(), AllocError> {
        self.put("\"")?;
        'parts: for part in parts {
            match part {
                Part::Text(text) => self.put(text)?,
                Part::Program(program) => self.put_row("#{", program.as_slice(), "}")?,
            }
        }
        self.put("\"")
    }

    #[cycle(show)]
    fn put_rescues(&mut self, rescues: &[Rescue<Node>]) -> Result<(), AllocError> {
        'rescues: for rescue in rescues {
            self.put(" rescue ")?;
            self.put_row("", rescue.paths.as_slice(), "")?;
            if !rescue.paths.as_slice().is_empty() {
                self.put(" ")?;
            }
            if let Some(variable) = rescue.variable {
                self.put_name("=> ", variable, " ")?;
            }
            self.put_row("{", rescue.body.as_slice(), "}")?;
        }
        Ok(())
    }

    fn put_required(&mut self, required: &[Name]) -> Result<(), AllocError> {
        for place in 0..required.len() {
            self.put_space(place)?;
            self.put_name("", required[place], "")?;
        }
        Ok(())
    }

    #[cycle(show)]
    fn put_defaults(
        &mut self,
        before: usize,
        defaults: &[Default<Node>],
    ) -> Result<(), AllocError> {
        'defaults: for place in 0..defaults.len() {
            self.put_space(before.saturating_add(place))?;
            self.put_name("", defaults[place].name, "=")?;
            self.put_node(&defaults[place].value)?;
        }
        Ok(())
    }

    #[cycle(show)]
    fn put_branch(&mut self, front: &str, branch: &Option<Items<Node>>) -> Result<(), AllocError> {
        match branch {
            Some(body) => self.put_row(front, body.as_slice(), "}"),
            None => Ok(()),
        }
    }

    #[cycle(show)]
    fn put_base(&mut self, base: &Base<Node>, name: Name) -> Result<(), AllocError> {
        match base {
            Base::Innermost => self.put_name("", name, ""),
            Base::Topmost => self.put_name("::", name, ""),
            Base::Within(node) => {
                self.put_node(node.get())?;
                self.put_name("::", name, "")
            }
        }
    }

    // A node that is set, what stands before its name, and its value.
    #[cycle(show)]
    fn put_set(&mut self, front: &str, name: Name, value: &Node) -> Result<(), AllocError> {
        self.put_name(front, name, " = ")?;
        self.put_node(value)?;
        self.put(")")
    }

    #[cycle(show)]
    fn put_logic(&mut self, node: &Node, between: &str) -> Result<(), AllocError> {
        let (Node::And(left, right) | Node::Or(left, right)) = node else {
            return Ok(());
        };
        self.put("(")?;
        self.put_node(left.get())?;
        self.put(between)?;
        self.put_node(right.get())?;
        self.put(")")
    }

    #[cycle(show)]
    fn put_assignment(&mut self, node: &Node) -> Result<(), AllocError> {
        match node {
            Node::SetLocal(name, value) => self.put_set("($", *name, value.get()),
            Node::SetInstanceVariable(name, value) => self.put_set("(@", *name, value.get()),
            Node::SetClassVariable(name, value) => self.put_set("(@@", *name, value.get()),
            Node::SetConst(name, value) => self.put_set("(", *name, value.get()),
            Node::SetScoped(base, name, value) => {
                self.put("(")?;
                self.put_node(base.get())?;
                self.put_set("::", *name, value.get())
            }
            Node::SetAttribute(receiver, name, value) => {
                self.put("(")?;
                self.put_node(receiver.get())?;
                self.put_set(".", *name, value.get())
            }
            _ => Ok(()),
        }
    }

    #[cycle(show)]
    fn put_call(&mut self, node: &Node) -> Result<(), AllocError> {
        match node {
            Node::Call(receiver, name, arguments) => {
                self.put_node(receiver.get())?;
                self.put_name(".", *name, "")?;
                self.put_row("(", arguments.as_slice(), ")")
            }
            Node::SelfCall(name, arguments) => {
                self.put_name("", *name, "")?;
                self.put_row("(", arguments.as_slice(), ")")
            }
            Node::Super(arguments) => self.put_row("super(", arguments.as_slice(), ")"),
            Node::Scoped(base, name) => {
                self.put_node(base.get())?;
                self.put_name("::", *name, "")
            }
            _ => Ok(()),
        }
    }

    #[cycle(show)]
    fn put_test(&mut self, front: &str, order: Order, test: &Node) -> Result<(), AllocError> {
        self.put(front)?;
        if order == Order::BodyFirst {
            self.put("'")?;
        }
        self.put("(")?;
        self.put_node(test)
    }

    #[cycle(show)]
    fn put_control(&mut self, node: &Node) -> Result<(), AllocError> {
        match node {
            Node::If(order, test, body, other) => {
                self.put_test("if", *order, test.get())?;
                self.put_row(" {", body.as_slice(), "}")?;
                self.put_row(" {", other.as_slice(), "})")
            }
            Node::While(order, test, body) => {
                self.put_test("while", *order, test.get())?;
                self.put_row(" {", body.as_slice(), "})")
            }
            Node::Return(None) => self.put("return"),
            Node::Return(Some(value)) => {
                self.put("return(")?;
                self.put_node(value.get())?;
                self.put(")")
            }
            Node::Begin(body, rescues, other, ensured) => {
                self.put_row("begin{", body.as_slice(), "}")?;
                self.put_rescues(rescues.as_slice())?;
                self.put_branch(" else{", other)?;
                self.put_branch(" ensure{", ensured)
            }
            _ => Ok(()),
        }
    }

    #[cycle(show)]
    fn put_method_node(&mut self, node: &Node) -> Result<(), AllocError> {
        let (Node::Def(name, required, defaults, body)
        | Node::SDef(name, required, defaults, body)) = node
        else {
            return Ok(());
        };
        self.put_method(*name)?;
        self.put("(")?;
        self.put_required(required.as_slice())?;
        self.put_defaults(required.as_slice().len(), defaults.as_slice())?;
        self.put_row("){", body.as_slice(), "}")
    }

    #[cycle(show)]
    fn put_definition(&mut self, node: &Node) -> Result<(), AllocError> {
        match node {
            Node::Def(_, _, _, _) => {
                self.put("def ")?;
                self.put_method_node(node)
            }
            Node::SDef(_, _, _, _) => {
                self.put("def self.")?;
                self.put_method_node(node)
            }
            Node::Class(base, name, superclass, body) => {
                self.put("class ")?;
                self.put_base(base, *name)?;
                if let Some(superclass) = superclass {
                    self.put(" < ")?;
                    self.put_node(superclass.get())?;
                }
                self.put_row("{", body.as_slice(), "}")
            }
            Node::Module(base, name, body) => {
                self.put("module ")?;
                self.put_base(base, *name)?;
                self.put_row("{", body.as_slice(), "}")
            }
            _ => Ok(()),
        }
    }

    #[cycle(show)]
    fn put_node(&mut self, node: &Node) -> Result<(), AllocError> {
        match node {
            Node::Str(text) => {
                self.put("\"")?;
                self.put(text)?;
                self.put("\"")
            }
            Node::Interp(parts) => self.put_parts(parts.as_slice()),
            Node::Array(nodes) => self.put_row("[", nodes.as_slice(), "]"),
            Node::Seq(nodes) => self.put_row("{", nodes.as_slice(), "}"),
            Node::Not(value) => {
                self.put("!(")?;
                self.put_node(value.get())?;
                self.put(")")
            }
            Node::And(_, _) => self.put_logic(node, " and "),
            Node::Or(_, _) => self.put_logic(node, " or "),
            Node::SetLocal(_, _)
            | Node::SetInstanceVariable(_, _)
            | Node::SetClassVariable(_, _)
            | Node::SetConst(_, _)
            | Node::SetScoped(_, _, _)
            | Node::SetAttribute(_, _, _) => self.put_assignment(node),
            Node::Call(_, _, _) | Node::SelfCall(_, _) | Node::Super(_) | Node::Scoped(_, _) => {
                self.put_call(node)
            }
            Node::If(_, _, _, _)
            | Node::While(_, _, _)
            | Node::Return(_)
            | Node::Begin(_, _, _, _) => self.put_control(node),
            Node::Def(_, _, _, _)
            | Node::SDef(_, _, _, _)
            | Node::Class(_, _, _, _)
            | Node::Module(_, _, _) => self.put_definition(node),
            _ => self.put_leaf(node),
        }
    }
}

/// The statements of a program, each with its line.
pub(crate) fn shown_program(
    alloc: Global,
    names: &Names,
    program: &Program,
) -> Result<String, AllocError> {
    let mut page = Page {
        alloc,
        names,
        text: String::new(alloc),
    };
    for place in 0..program.statements.len() {
        let statement = &program.statements[place];
        page.put_space(place)?;
        let line = format!(in alloc; "{}:", statement.line)?;
        page.put(&line)?;
        page.put_node(&statement.node)?;
    }
    Ok(page.text)
}
