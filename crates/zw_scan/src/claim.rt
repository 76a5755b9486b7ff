//! What files and directories are expected to define.
ghost use Rattle.std.specs.Prelude.{◌≡◌, ◌++◌, [], List, Some, IfOk, IfSome, OnOk, option_map};
ghost use Rattle.std.specs.List.{cons_option};
ghost use Rattle.zw_def.specs.Text.{Text};
ghost use Rattle.zw_def.specs.Names.{AreNamed};
ghost use Rattle.zw_scan.specs.ClaimTold.{told_with};
ghost use Rattle.zw_scan.specs.ClaimSeen.{IsNamed, claim_seen, expected_seen};

use std::alloc::{AllocError, Global};
use zw_layout::WrongName;
use zw_names::CPath;
use zw_path::Path;

/// A visible file, or a directory that counts and is not collapsed, and what it is expected to define: a constant path,
/// or a name that is none.
#[derive(Drop)]
pub struct Claim {
    /// The file or directory.
    pub path: Path,
    /// Its constant path, or the wrong name.
    pub expected: Result<CPath, WrongName>,
}

/// A copy of the path, and what it is expected to define.
pub(crate) fn with_path(
    alloc: Global,
    path: &Path,
    expected: Result<CPath, WrongName>,
) -> Result<Option<Claim>, AllocError>
    ensures told { IfOk result (λ claim. (names : List Text) →
        option_map (claim_seen names) claim ≡ Some (told_with path.now (expected_seen names expected))) }
    ensures named { IfOk result (λ claim. (names : List Text) →
        IfOk expected (AreNamed names) → IfSome claim (IsNamed names)) }
{
    let path = path.copy(alloc)?;
    Ok(Some(Claim { path, expected }))
}

/// Adds the claim, if there is one.
pub(crate) fn push_some(claims: &mut Vec<Claim>, claim: Option<Claim>) -> Result<(), AllocError>
    ensures { OnOk result (claims.new.items ≡ claims.old.items ++ cons_option claim []) }
{
    if let Some(claim) = claim {
        claims.push(claim)?;
    }
    Ok(())
}
