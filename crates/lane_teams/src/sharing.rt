// Lines for the lanes of several workers.
ghost use Rattle.std.specs.Prelude.{◌≡◌, ◌≤◌, IfSome, None};
ghost use Rattle.band_blocks.specs.Blocks.{most_blocks};

use crate::WorkerCount;
use catalog::Catalog;
use outside::Folder;
use shared_lines::{Lines, Scene};
use std::alloc::Global;

/// So many empty lines, from 1 to 65,536, for what several workers read of a catalog. They stand for the catalog and
/// for the folder's files, as both are now. There are none where one worker reads, nor where memory is refused for
/// them: all is read without lines then.
pub fn lines_for<F: Folder, S: Scene>(
    alloc: Global,
    workers: WorkerCount,
    count: u32,
    cat: &Catalog,
    folder: &F,
) -> Option<Lines<S>>
    requires told { S.told ≡ F.names folder.now }
    requires scene { S.cat ≡ cat.now }
    requires some { 1 ≤ count }
    requires few { count ≤ most_blocks }
    ensures alone { workers ≡ 1 → result ≡ None }
    ensures count { IfSome result (λ lines. lines ≡ count) }
{
    if workers.get() == 1 {
        return None;
    }
    match Lines::new(alloc, cat, folder, count) {
        Ok(lines) => Some(lines),
        Err(_) => None,
    }
}
