//! What is expected to define a constant: files and directories with constant paths.
ghost use Rattle.std.specs.Prelude.{◌≡◌, ◌++◌, [], List, IfOk, IfSome, OnOk, map, filter_map, option_map};
ghost use Rattle.std.specs.List.{All, cons_option};
ghost use Rattle.zw_def.specs.Text.{Text};
ghost use Rattle.zw_inflect.specs.Layout.{layout_seen, root_seen};
ghost use Rattle.zw_scan.specs.ClaimSeen.{IsNamed, claim_seen};
ghost use Rattle.zw_scan.specs.FoundTold.{found_told, own_all, own_told};
ghost use Rattle.zw_scan.specs.FoundSeen.{IsFoundNamed, found_seen};

use crate::claim::Claim;
use std::alloc::{AllocError, Global};
use zw_inflect::{Layout, Root};
use zw_layout::belongs_to;
use zw_names::CPath;
use zw_path::Path;

/// A file or a directory, and the constant path that it is expected to define.
#[derive(Drop)]
pub struct Found {
    /// The file or directory.
    pub path: Path,
    /// Its constant path.
    pub names: CPath,
}

/// A copy of the claim, if its constant path has no wrong name.
fn found_of(alloc: Global, claim: &Claim) -> Result<Option<Found>, AllocError>
    ensures told { IfOk result (λ found. (names : List Text) →
        option_map (found_seen names) found ≡ found_told (claim_seen names claim.now)) }
    ensures named { IfOk result (λ found. (names : List Text) →
        IsNamed names claim.now → IfSome found (IsFoundNamed names)) }
{
    let Ok(names) = &claim.expected else {
        return Ok(None);
    };
    let path = claim.path.copy(alloc)?;
    let names = names.copy(alloc)?;
    Ok(Some(Found { path, names }))
}

/// The same, if it belongs to the root.
fn own_found(
    alloc: Global,
    layout: &Layout,
    root: &Root,
    claim: &Claim,
) -> Result<Option<Found>, AllocError>
    ensures told { IfOk result (λ found. (names : List Text) → option_map (found_seen names) found
        ≡ own_told (layout_seen names layout.now) (root_seen names root.now) (claim_seen names claim.now)) }
    ensures named { IfOk result (λ found. (names : List Text) →
        IsNamed names claim.now → IfSome found (IsFoundNamed names)) }
{
    if belongs_to(layout, root, &claim.path) {
        found_of(alloc, claim)
    } else {
        Ok(None)
    }
}

/// Adds what was found, if anything was.
pub(crate) fn push_some(all: &mut Vec<Found>, found: Option<Found>) -> Result<(), AllocError>
    ensures { OnOk result (all.new.items ≡ all.old.items ++ cons_option found []) }
{
    if let Some(found) = found {
        all.push(found)?;
    }
    Ok(())
}

/// Adds those of the claims that belong to the root.
fn push_own(
    alloc: Global,
    layout: &Layout,
    root: &Root,
    all: &mut Vec<Found>,
    claims: &[Claim],
) -> Result<(), AllocError>
    ensures told { OnOk result ((names : List Text) → map (found_seen names) all.new.items
        ≡ map (found_seen names) all.old.items
        ++ filter_map (own_told (layout_seen names layout.now) (root_seen names root.now))
        (map (claim_seen names) claims.now)) }
    ensures named { OnOk result ((names : List Text) → All (IsNamed names) claims.now →
        All (IsFoundNamed names) all.old.items → All (IsFoundNamed names) all.new.items) }
{
    for claim in claims {
        let found = own_found(alloc, layout, root, claim)?;
        push_some(all, found)?;
    }
    Ok(())
}

/// Those of the first root, then those of the second, and so on.
pub(crate) fn in_root_order(
    alloc: Global,
    layout: &Layout,
    claims: &[Claim],
) -> Result<Vec<Found>, AllocError>
    ensures told { IfOk result (λ all. (names : List Text) → map (found_seen names) all.items
        ≡ own_all (layout_seen names layout.now) (map (claim_seen names) claims.now)) }
    ensures named { IfOk result (λ all. (names : List Text) →
        All (IsNamed names) claims.now → All (IsFoundNamed names) all.items) }
{
    let mut all = Vec::new(alloc);
    for root in &layout.roots {
        push_own(alloc, layout, root, &mut all, claims)?;
    }
    Ok(all)
}

/// Those of the claims that have a constant path, in their order.
pub fn in_order(alloc: Global, claims: &[Claim]) -> Result<Vec<Found>, AllocError>
    ensures told { IfOk result (λ all. (names : List Text) →
        map (found_seen names) all.items ≡ filter_map found_told (map (claim_seen names) claims.now)) }
    ensures named { IfOk result (λ all. (names : List Text) →
        All (IsNamed names) claims.now → All (IsFoundNamed names) all.items) }
{
    let mut all = Vec::new(alloc);
    for claim in claims {
        let found = found_of(alloc, claim)?;
        push_some(&mut all, found)?;
    }
    Ok(all)
}
