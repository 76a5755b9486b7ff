//! Texts, with the program or the fault that the rules of the language give them, written by hand.
ghost use Rattle.std.specs.Prelude.{◌<◌, IfOk, length};

mod calls;
mod deep;
mod faults;
mod forms;
mod methods;
mod neighbours;
mod statements;
mod values;

use crate::shown::shown_program;
use std::alloc::{AllocError, Global};
use std::process::Abort;
use zw_ast::Program;
use zw_names::{Name, Names};
use zw_parser::{ParseFault, read_program};

/// A variable that is known at the start, or nothing; a text; and what is read.
pub(crate) type Row<'a> = (&'a str, &'a str, &'a str);

// The name of a variable.
fn named(names: &mut Names, known: &str) -> Result<Name, AllocError>
    ensures { IfOk result (λ name. name.0 < length names.new) }
{
    names.intern(known)
}

fn parsed(
    alloc: Global,
    names: &mut Names,
    known: &str,
    text: &str,
) -> Result<Program, ParseFault> {
    if known.is_empty() {
        read_program(alloc, text.as_bytes(), &[], names)
    } else {
        let name = named(names, known)?;
        read_program(alloc, text.as_bytes(), &[name], names)
    }
}

// What the parser makes of a text.
fn read(alloc: Global, known: &str, text: &str) -> Result<String, AllocError> {
    let mut names = Names::new(alloc)?;
    match parsed(alloc, &mut names, known, text) {
        Ok(program) => shown_program(alloc, &names, &program),
        Err(ParseFault::Refused(fault)) => {
            format!(in alloc; "reason {} line {}", fault.reason.number(), fault.line)
        }
        Err(ParseFault::Memory) => Err(AllocError),
    }
}

// Asserts that each text is read as is shown behind it.
fn agree(rt: &impl Abort, alloc: Global, rows: &[Row<'_>]) -> Result<(), AllocError> {
    for (known, text, shown) in rows {
        let read = read(alloc, known, text)?;
        assert!(rt; read.as_str() == *shown, "{text:?} is read as {read:?}");
    }
    Ok(())
}
