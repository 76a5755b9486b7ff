//! The listing of a folder, which is taken whole before the first file is read.
ghost use Rattle.std.specs.Prelude.{◌≡◌, IfOk, IfErr, IfSome, IsOk};
ghost use Rattle.zw_def_thin.specs.Mount.{listed};
ghost use Rattle.zw_top.specs.Refusal.{Gives, CountsStart};
ghost use Rattle.zw_top.specs.Reading.{IsOuter, MovesOn, ListsOne, file_seen, texts_seen};

use crate::configuration::fault_of;
use crate::limits;
use crate::refusal::{Refusal, StartFault, refused};
use std::alloc::Global;
use zw_io::Folder;

fn next_listed<F: Folder>(alloc: Global, folder: &mut F) -> Result<Option<Vec<u8>>, StartFault>
    ensures lists { IfOk result (λ path. ListsOne (F.listing folder.old) (file_seen path) (F.listing folder.new)) }
    ensures outer { IfErr result IsOuter }
    ensures cause { CountsStart result (F.faults folder.old) (F.faults folder.new) }
{
    let mut path = Vec::new(alloc);
    match folder.next_path(&mut path) {
        Ok(true) => Ok(Some(path)),
        Ok(false) => Ok(None),
        Err(fail) => Err(fault_of(fail)),
    }
}

/// All paths that are still to be listed.
pub(crate) fn listing_of<F: Folder>(
    alloc: Global,
    folder: &mut F,
) -> Result<Vec<Vec<u8>>, StartFault>
    ensures told { IfSome (F.listing folder.old) (λ l. Gives (λ v. texts_seen v.items) result (listed l)) }
    ensures files { IsOk result → MovesOn (F.listing folder.old) (F.listing folder.new) }
    ensures cause { CountsStart result (F.faults folder.old) (F.faults folder.new) }
{
    let mut paths = Vec::new(alloc);
    'paths: for _ in 0..limits::listed_paths() + 1 {
        match next_listed(alloc, folder)? {
            None => return Ok(paths),
            Some(path) => paths.push(path)?,
        }
    }
    Err(refused(Refusal::LongListing))
}
