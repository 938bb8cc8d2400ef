// Lines that are shared. An exchange on a line's word that gets the right to read is a look, and giving that right back
// leaves the line; one that gets the right to write takes it, and giving that back puts a block into it. A lost try is
// done. Nothing else is done to a word.
ghost use Rattle.std.specs.Prelude.{◌≡◌, ℕ, ◌+◌, ◌^◌, ◌%◌, ◌<◌, ◌≤◌, length, Option, true, false, IfOk, IfSome};
ghost use Rattle.counted_slot.specs.Counting.{IsTurn, readers};
ghost use Rattle.band_blocks.specs.Contents.{IsBlock};
ghost use Rattle.shared_lines.specs.Events.{key_line_of};
ghost use Rattle.shared_lines.specs.Shapes.{HasShape};
ghost use Rattle.band_blocks.specs.Blocks.{most_blocks};

use crate::Scene;
use band_blocks::{Block, BlockKey};
use catalog::Catalog;
use counted_slot::{Counted, Fits, ONE_READER, PRESENT, TAKEN};
use outside::Folder;
use std::alloc::{AllocError, Global};
use std::marker::{Model, PhantomData};

// A block with its key.
#[derive(Drop)]
struct Held<S: Scene> {
    key: BlockKey,
    block: Block,
    scene: PhantomData<S>,
}

impl<S: Scene> Fits for Held<S> {
    type Tag = ();

    ghost fits = { λ _ held. IsBlock S.told S.cat held.key held.block };
}

/// Lines for the blocks of one catalog over one folder's files. Each is empty, or has the block of a key; any number of
/// threads may look at them and offer blocks, and none waits for another. A contract sees how many lines there are.
#[derive(Drop)]
pub struct Lines<S: Scene> {
    lines: Vec<Counted<Option<Held<S>>>>,
}

impl<S: Scene> Model for Lines<S> {
    ghost use Rattle.std.specs.Prelude.{ℕ, ◌<◌, length};

    ghost Value = { ℕ };

    ghost view = { λ l. length l.lines.items };

    ghost invariant = { λ l. 0 < length l.lines.items };
}

// So many empty lines. They are refused where memory is.
fn empty_lines<S: Scene>(
    alloc: Global,
    count: u32,
) -> Result<Vec<Counted<Option<Held<S>>>>, AllocError>
    ensures count { IfOk result (λ lines. length lines.items ≡ count) }
{
    let mut lines = Vec::new(alloc);
    for _at in 0..count {
        lines.push(Counted::new(None, &()))?;
    }
    Ok(lines)
}

// The number of a key's line.
fn line_at(key: &BlockKey, count: usize) -> usize
    requires some { 0 < count }
    ensures line { result ≡ key_line_of count key.now }
    ensures within { result < count }
{
    let number = key.dataset as u128 * 31 + key.band as u128 * 7 + key.block as u128;
    (number % count as u128) as usize
}

// The word is that of a line with a block, which one reader more may look at.
fn may_look(word: u64) -> bool
    ensures turn { result ≡ true → IsTurn word (word + 4) }
    ensures more { result ≡ true → readers word < readers (word + 4) }
    ensures shared { result ≡ true → (word + 4) % 4 < 3 }
    ensures room { result ≡ true → word + 4 < 2 ^ 64 }
{
    word % 4 == PRESENT && word % 4294967296 < 4294967292 && word < u64::MAX - 4
}

// The word is that of a line which nobody reads or writes.
fn may_take(word: u64) -> bool
    ensures turn { result ≡ true → IsTurn word 3 }
{
    word % 4 != TAKEN && word % 4294967296 < ONE_READER
}

// Copies the block that a line has, if it is the key's.
fn show<S: Scene>(line: &Option<Held<S>>, key: &BlockKey, out: &mut Block) -> bool
    requires fits { IfSome line.now (λ held. IsBlock S.told S.cat held.key held.block) }
    requires shape { HasShape S.cat key.now out.old }
    ensures hit { result ≡ true → IsBlock S.told S.cat key.now out.new }
    ensures miss { result ≡ false → out.new ≡ out.old }
{
    let Some(held) = line else {
        return false;
    };
    if held.key != *key {
        return false;
    }
    out.copy_from(&held.block);
    true
}

// Puts a block with its key into a line, unless the one try doesn't get the right to write.
fn put<S: Scene>(line: &Counted<Option<Held<S>>>, held: Held<S>) -> bool
    requires fits { IsBlock S.told S.cat held.key held.block }
{
    let seen = line.load();
    if !may_take(seen) {
        drop(held);
        return false;
    }
    let (found, claim) = line.turn(seen, TAKEN);
    if found != seen {
        claim.done();
        drop(held);
        return false;
    }
    drop(claim.put(Some(held), PRESENT));
    true
}

impl<S: Scene> Lines<S> {
    /// So many empty lines, from 1 to 65,536. They stand for the datasets of the catalog and for the folder's files, as
    /// both are now. They are refused where memory is.
    pub fn new<F: Folder>(
        alloc: Global,
        cat: &Catalog,
        folder: &F,
        count: u32,
    ) -> Result<Lines<S>, AllocError>
        requires told { S.told ≡ F.names folder.now }
        requires cat { S.cat ≡ cat.now }
        requires some { 1 ≤ count }
        requires few { count ≤ most_blocks }
        ensures count { IfOk result (λ lines. lines ≡ count) }
    {
        // These two are taken for the proof alone: the lines stand for them.
        let _ = cat;
        let _ = folder;
        let lines = empty_lines(alloc, count)?;
        Ok(Lines { lines })
    }

    /// Looks for the block of a key of the catalog. `out` has that block's type and length; where the answer is `true`
    /// it is that block then, whoever offered it. `false` comes only where the one try didn't get the right to read, or
    /// the key's line had another key or none; `out` is then as before. No memory is taken, and nothing waited for.
    pub fn look(&self, key: &BlockKey, out: &mut Block) -> bool
        requires shape { HasShape S.cat key.now out.old }
        ensures hit { result ≡ true → IsBlock S.told S.cat key.now out.new }
        ensures miss { result ≡ false → out.new ≡ out.old }
    {
        let line = &self.lines[line_at(key, self.lines.len())];
        let seen = line.load();
        if !may_look(seen) {
            return false;
        }
        let (found, claim) = line.turn(seen, seen + ONE_READER);
        if found != seen {
            claim.done();
            return false;
        }
        let hit = show(claim.get(), key, out);
        claim.leave();
        hit
    }

    /// Puts a copy of the block of a key of the catalog into that key's line, in the place of what it had. `Ok(false)`
    /// comes only where the one try didn't get the right to write; nothing is waited for. The copy is made first, so
    /// where it is refused memory no line is touched.
    pub fn offer(&self, key: BlockKey, block: &Block) -> Result<bool, AllocError>
        requires block { IsBlock S.told S.cat key block.now }
    {
        let held = Held {
            key,
            block: block.copy()?,
            scene: PhantomData,
        };
        let line = &self.lines[line_at(&key, self.lines.len())];
        Ok(put(line, held))
    }
}
