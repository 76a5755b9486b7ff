//! The variables that parameters are.
ghost use Rattle.std.specs.Prelude.{◌≡◌, ◌≤◌, IfOk, length};
ghost use Rattle.zw_def.specs.Names.{texts_of};
ghost use Rattle.zw_def_syntax.specs.Compound.{names_of};
ghost use Rattle.zw_ast.specs.Part.{params_names, params_seen};
ghost use Rattle.zw_expr.specs.Named.{AreNumbers};

use std::alloc::AllocError;
use zw_ast::{Maker, Params};
use zw_expr::Known;

/// The parameters, as variables that are known.
#[inline(never)]
pub(crate) fn params_known(maker: &Maker<'_>, params: &Params) -> Result<Known, AllocError>
    requires { params_names params.now ≤ length maker.now.names.now }
    ensures told { IfOk result (λ known. texts_of maker.now.names.now known
        ≡ names_of (params_seen maker.now.names.now params.now)) }
    ensures named { IfOk result (AreNumbers maker.now.names.now) }
{
    let mut known = Known::new(maker.alloc);
    'required: for name in &params.required {
        known.push(*name)?;
    }
    'optional: for optional in &params.optional {
        known.push(optional.name)?;
    }
    Ok(known)
}
