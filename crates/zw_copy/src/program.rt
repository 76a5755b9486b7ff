//! Copies of programs.
ghost use Rattle.std.specs.Prelude.{IfOk};
ghost use Rattle.zw_copy.specs.Copy.{IsProgramCopy};

use crate::node::copy;
use std::alloc::{AllocError, Global};
use zw_ast::{Program, Statement};

/// The same program, in memory of its own.
pub fn copy_program(alloc: Global, program: &Program) -> Result<Program, AllocError>
    ensures { IfOk result (IsProgramCopy program.now) }
{
    let mut statements = Vec::with_capacity(alloc, program.statements.len())?;
    'statements: for statement in &program.statements {
        let node = copy(alloc, &statement.node)?;
        statements.push(Statement {
            line: statement.line,
            node,
        })?;
    }
    Ok(Program { statements })
}
