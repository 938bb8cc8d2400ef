// SRTM tiles, by their names and lengths.
ghost use Rattle.std.specs.Prelude.{◌≡◌, ◌≤◌, ℕ, length, Some, IfOk, IfErr, is_some};
ghost use Rattle.lists_and_answers.specs.Answers.{Gives};
ghost use Rattle.outside.specs.Outside.{Files};
ghost use Rattle.outside.specs.Causes.{HasCause};
ghost use Rattle.outside.specs.Names.{last_part};
ghost use Rattle.hgt_tiles.specs.Names.{corner_of};
ghost use Rattle.catalog.specs.Outcomes.{IsOutside};
ghost use Rattle.catalog.specs.Drivers.{Fits};
ghost use Rattle.catalog.specs.OwnFiles.{content_kind, IsOfFile};
ghost use Rattle.catalog.specs.Heads.{hgt_in};

use crate::driver::{Content, Found};
use crate::files::open_file;
use crate::{Bad, DriverHead, Kind, WalkFault};
use hgt_tiles::{HgtFault, read_name, side};
use outside::{Folder, Name};

// Whether the name is that of a tile.
fn is_tile_name(name: &Name) -> bool
    ensures { result ≡ is_some (corner_of (last_part name.now)) }
{
    read_name(name.last_part()).is_some()
}

// Finds the tile of a name: reads the name, opens the file, and compares its length.
#[tactic(auto, using(crate::proofs::Headers::outside_fails), unfolding(crate::specs::Heads::hgt_in))]
pub fn find_tile<F: Folder>(folder: &mut F, name: &Name) -> Result<Found, WalkFault>
    ensures told { (m : Files) → F.names folder.old ≡ Some m → Gives IsOutside (λ found. found) result
        (hgt_in m name.now) }
    ensures kind { IfOk result (λ found. content_kind found.content ≡ Kind.Hgt) }
    ensures fits { IfOk result (λ found. Fits name.now found.content found.length) }
    ensures names { F.names folder.new ≡ F.names folder.old }
    ensures read_calls { F.read_calls folder.new ≡ F.read_calls folder.old }
    ensures write_calls { F.write_calls folder.new ≡ F.write_calls folder.old }
    ensures cause { HasCause WalkFault.FolderFault (F.faults folder.old) (F.faults folder.new) result }
    ensures of_file { IfErr result IsOfFile }
{
    if !is_tile_name(name) {
        return Err(WalkFault::Malformed {
            name: name.try_clone()?,
            bad: Bad::Hgt(HgtFault::BadName),
        });
    }
    let file = open_file(folder, name)?;
    let length = folder.len(&file);
    match side(length) {
        Some(side) => Ok(Found {
            content: Content::File(DriverHead::Hgt { side }),
            length,
        }),
        None => Err(WalkFault::Malformed {
            name: name.try_clone()?,
            bad: Bad::Hgt(HgtFault::BadLength),
        }),
    }
}
