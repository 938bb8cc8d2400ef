// Names of sources of which some stand again, with others between, as where each band of a mosaic has the same files.
ghost use Rattle.std.specs.Prelude.{◌≡◌, ◌<◌, ◌+◌, ◌∷◌, [], true, List, ℕ, length, take, IfOk, IfSome, OnOk};
ghost use Rattle.std.specs.List.{fold};
ghost use Rattle.lists_and_answers.specs.Lists.{is_among};
ghost use Rattle.vrt_markup.specs.Hashes.{text_hash};
ghost use Rattle.catalog.specs.Mosaics.{distinct};
ghost use Rattle.catalog.specs.Gathered.{HasKept};

use crate::gathered::{are_same, behind_first, hashes_differ};
use lists_and_answers::Items;
use outside::{Name, Names};
use std::alloc::{AllocError, Global};
use vrt_markup::text_hash;

// The hash of each name, with this key, and its place.
fn hashed_places(alloc: Global, key: u64, names: &[Name]) -> Result<Vec<(u64, usize)>, AllocError>
    ensures count { IfOk result (λ hashed. length hashed.items ≡ length names.now) }
{
    let mut hashed = Vec::with_capacity(alloc, names.len())?;
    for at in 0..names.len() {
        hashed.push((text_hash(key, names[at].as_str().as_bytes()), at))?;
    }
    Ok(hashed)
}

// Where a hash is the one in front of it, keeps the place of that one's name for its own.
fn link_same(hashed: &[(u64, usize)], earlier: &mut Vec<usize>)
    ensures count { length earlier.new.items ≡ length earlier.old.items }
{
    for at in 1..hashed.len() {
        let (last_hash, last) = hashed[at - 1];
        let (hash, place) = hashed[at];
        if hash == last_hash && place < earlier.len() {
            earlier[place] = last;
        }
    }
}

// For each name the place of the last one of the same hash before it; as many as there are names, where there is none.
// No clause says so: whether that name is the same is asked once more.
fn earlier_places(alloc: Global, key: u64, names: &[Name]) -> Result<Vec<usize>, AllocError>
    ensures count { IfOk result (λ earlier. length earlier.items ≡ length names.now) }
{
    let mut hashed = hashed_places(alloc, key, names)?;
    hashed.sort_unstable();
    let mut earlier = vec![in alloc; names.len(); names.len()]?;
    link_same(&hashed, &mut earlier);
    Ok(earlier)
}

// Whether a name is the one at another place, and that is before this place.
fn stands_before(names: &[Name], at: usize, other: usize, name: &Name) -> bool
    requires within { at < length names.now }
    ensures before { result ≡ true → is_among (take at names.now) name.now ≡ true }
{
    if other >= at {
        return false;
    }
    are_same(&names[other], name)
}

// The own name alone.
#[tactic(auto, using(crate::proofs::Keepings::kept_none))]
fn own_alone(alloc: Global, own: &Name) -> Result<Names, AllocError>
    ensures kept { IfOk result (λ files. HasKept own.now [] files) }
{
    let mut files = Items::new(alloc);
    files.push(own.try_clone()?)?;
    Ok(files)
}

// Adds the name at a place, unless it is the one at that earlier place.
fn keep(names: &[Name], at: usize, earlier: usize, files: &mut Names) -> Result<(), AllocError>
    requires within { at < length names.now }
    ensures kept { OnOk result ((own : List ℕ) → HasKept own (take at names.now) files.old →
        HasKept own (take (at + 1) names.now) files.new) }
{
    let name = &names[at];
    if stands_before(names, at, earlier, name) {
        return Ok(());
    }
    files.push(name.try_clone()?)?;
    Ok(())
}

// The own name, and those of the names that aren't the ones at these earlier places.
fn kept_but(
    alloc: Global,
    own: &Name,
    names: &[Name],
    earlier: &[usize],
) -> Result<Names, AllocError>
    requires even { length earlier.now ≡ length names.now }
    ensures kept { IfOk result (λ files. HasKept own.now names.now files) }
{
    let mut files = own_alone(alloc, own)?;
    for at in 0..names.len() {
        keep(names, at, earlier[at], &mut files)?;
    }
    Ok(files)
}

// The own name and some others, without those that stand earlier, as far as the hashes with this key tell.
fn kept_files(alloc: Global, key: u64, own: &Name, names: &[Name]) -> Result<Names, AllocError>
    ensures kept { IfOk result (λ files. HasKept own.now names.now files) }
{
    let earlier = earlier_places(alloc, key, names)?;
    kept_but(alloc, own, names, &earlier)
}

/// The own name and some others, each once; none where two that differ have one hash with this key.
#[tactic(auto, using(crate::proofs::Keepings::kept_apart))]
pub fn told_apart(
    alloc: Global,
    key: u64,
    own: &Name,
    names: &[Name],
) -> Result<Option<Names>, AllocError>
    ensures listed { IfOk result (λ o. IfSome o (λ files. files ≡ own.now ∷ distinct names.now)) }
{
    let files = kept_files(alloc, key, own, names)?;
    if !hashes_differ(alloc, key, behind_first(files.as_slice()))? {
        return Ok(None);
    }
    Ok(Some(files))
}

/// A key that is made of all names.
pub fn key_of(names: &[Name]) -> u64
    ensures key { result ≡ fold text_hash 0 names.now }
{
    let mut key = 0;
    for name in names {
        key = text_hash(key, name.as_str().as_bytes());
    }
    key
}
