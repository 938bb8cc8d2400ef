// The names of a mosaic's sources, which are distinct where they rise or where their hashes differ.
ghost use Rattle.std.specs.Prelude.{◌≡◌, ◌==◌, ◌++◌, ◌∷◌, ◌&&◌, [], true, false, List, ℕ, drop, map, IfOk, OnOk};
ghost use Rattle.std.specs.Ordering.{is_eq, is_gt};
ghost use Rattle.vrt_markup.specs.Hashes.{text_hash};
ghost use Rattle.vrt_markup.specs.Keys.{apart};
ghost use Rattle.catalog.specs.Mosaics.{distinct};
ghost use Rattle.catalog.specs.Gathered.{HasGathered, is_rising, order_behind};

use lists_and_answers::Items;
use outside::{Name, Names};
use std::alloc::{AllocError, Global};
use std::cmp::Ordering;
use vrt_markup::text_hash;

/// The files of a mosaic so far: its own name and then names of sources, of which later ones may be
/// earlier ones again; and whether each name of a source is greater than the one before it.
#[derive(Drop)]
pub struct Gathered {
    pub files: Names,
    pub rising: bool,
}

// Whether names still rise with one more, which stands to the last one in this order; `before` says whether they rose.
fn still_rises(before: bool, order: Ordering) -> bool
    ensures rises { result ≡ (before && is_gt order) }
{
    before && order.is_gt()
}

/// Whether two names are one.
pub fn are_same(a: &Name, b: &Name) -> bool
    ensures same { result ≡ true → a.now ≡ b.now }
{
    a.is(b)
}

impl Gathered {
    /// The own name alone.
    #[tactic(auto, using(crate::proofs::Gatherings::gathered_none))]
    pub fn new(alloc: Global, own: &Name) -> Result<Gathered, AllocError>
        ensures gathered { IfOk result (λ g. HasGathered own.now [] g) }
    {
        let mut files = Items::new(alloc);
        files.push(own.try_clone()?)?;
        Ok(Gathered {
            files,
            rising: true,
        })
    }

    // How a name compares with that of the last source, by their bytes: it is greater where there is none.
    fn order(&self, name: &Name) -> Ordering
        ensures order { result ≡ order_behind self.now.files name.now }
    {
        let count = self.files.len();
        if count < 2 {
            return Ordering::Greater;
        }
        name.as_str().cmp(self.files.get(count - 1).as_str())
    }

    // Whether a name is that of the last source.
    fn is_last(&self, name: &Name) -> bool
        ensures last { result ≡ true → is_eq (order_behind self.now.files name.now) ≡ true }
    {
        let count = self.files.len();
        if count < 2 {
            return false;
        }
        are_same(name, self.files.get(count - 1))
    }

    // Adds the name of a source to names that don't rise, unless it is that of the last one: their order isn't asked.
    #[tactic(auto, using(crate::proofs::Gatherings::gathered_last, crate::proofs::Gatherings::gathered_unordered))]
    fn add_unordered(&mut self, name: Name) -> Result<(), AllocError>
        requires unordered { self.old.rising ≡ false }
        ensures gathered { OnOk result ((own : List ℕ) (names : List (List ℕ)) → HasGathered own names self.old →
            HasGathered own (names ++ name ∷ []) self.new) }
    {
        if self.is_last(&name) {
            return Ok(());
        }
        self.files.push(name)
    }

    /// Adds the name of a source, unless it is that of the last one.
    #[tactic(auto, using(crate::proofs::Gatherings::gathered_last, crate::proofs::Gatherings::gathered_more))]
    pub fn add(&mut self, name: Name) -> Result<(), AllocError>
        ensures gathered { OnOk result ((own : List ℕ) (names : List (List ℕ)) → HasGathered own names self.old →
            HasGathered own (names ++ name ∷ []) self.new) }
    {
        if !self.rising {
            return self.add_unordered(name);
        }
        let order = self.order(&name);
        if order.is_eq() {
            return Ok(());
        }
        self.rising = still_rises(self.rising, order);
        self.files.push(name)
    }
}

// Whether no two of the numbers are the same: those that are stand side by side once they are sorted.
fn differ(mut numbers: Vec<u64>) -> Result<bool, AllocError>
    ensures { IfOk result (λ b. b ≡ apart (λ x y. x == y) numbers.items) }
{
    let count = numbers.len();
    numbers.sort()?;
    numbers.dedup();
    Ok(numbers.len() == count)
}

// The hash of each name, with this key.
fn hashes_of(alloc: Global, key: u64, names: &[Name]) -> Result<Vec<u64>, AllocError>
    ensures hashes { IfOk result (λ hashes. hashes.items ≡ map (text_hash key) names.now) }
{
    let mut hashes = Vec::with_capacity(alloc, names.len())?;
    for name in names {
        hashes.push(text_hash(key, name.as_str().as_bytes()))?;
    }
    Ok(hashes)
}

/// Whether names are told to be distinct by their hashes with this key.
#[tactic(auto, using(crate::proofs::Gatherings::apart_distinct))]
pub fn hashes_differ(alloc: Global, key: u64, names: &[Name]) -> Result<bool, AllocError>
    ensures apart { IfOk result (λ b. b ≡ true → distinct names.now ≡ names.now) }
{
    let hashes = hashes_of(alloc, key, names)?;
    let apart = differ(hashes)?;
    Ok(apart)
}

/// Whether names are told to be distinct, by their order where they rise, and else by their hashes.
#[tactic(auto, using(crate::proofs::Gatherings::rising_distinct))]
pub fn are_apart(alloc: Global, rising: bool, names: &[Name]) -> Result<bool, AllocError>
    ensures apart { IfOk result (λ b. b ≡ true → (rising ≡ true → is_rising names.now ≡ true) →
        distinct names.now ≡ names.now) }
{
    if rising {
        return Ok(true);
    }
    hashes_differ(alloc, 0, names)
}

/// The names behind the first one.
pub fn behind_first(files: &[Name]) -> &[Name]
    ensures { result.now ≡ drop 1 files.now }
{
    match files {
        [_, names @ ..] => names,
        [] => files,
    }
}
