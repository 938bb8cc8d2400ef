// The heads of mosaics, as their documents say, and the limits of their sources' names.
ghost use Rattle.std.specs.Prelude.{◌≡◌, ◌<◌, ◌+◌, ◌++◌, ◌∷◌, [], true, List, ℕ, length, take, map, flat_map};
ghost use Rattle.std.specs.Prelude.{IfOk, IfErr, OnOk};
ghost use Rattle.std.specs.List.{filter_map};
ghost use Rattle.catalog.specs.Outcomes.{IsMemory};
ghost use Rattle.catalog.specs.Dataset.{IsDatasetHead};
ghost use Rattle.catalog.specs.Mosaics.{distinct, source_name, source_names, mosaic_band, mosaic_head};
ghost use Rattle.catalog.specs.Gathered.{HasGathered, IsThere};
ghost use Rattle.catalog.specs.Listed.{HasListed};
ghost use Rattle.catalog.specs.Heads.{all_resolved, names_within};

use crate::driver::Content;
use crate::gathered::{Gathered, are_apart, behind_first};
use crate::repeats::{key_of, told_apart};
use crate::{BandHead, Bands, Head, Kind, LimitKind, WalkFault};
use geotransform::Size;
use lists_and_answers::Items;
use outside::{Name, NameFault, Names, Text};
use std::alloc::{AllocError, Global};
use std::collections::BTreeSet;
use vrt_profile::{Document, Source, VrtBand, resolve, resolved_len};

/// The side of a square of a mosaic, in pixels.
pub const SQUARE_SIDE: u32 = 128;

/// The greatest length of a text that is normalised to a name, in bytes.
const LONGEST_NAME: u64 = outside::LONGEST_NAME as u64;

// The files of a mosaic: its own name, then distinct names of sources, which `seen` looks up.
#[derive(Drop)]
pub struct Listing {
    pub files: Names,
    pub seen: BTreeSet<String>,
}

impl Listing {
    // The own name alone.
    fn new(alloc: Global, own: &Name) -> Result<Listing, AllocError>
        ensures listed { IfOk result (λ l. HasListed own.now [] l) }
    {
        let mut files = Items::new(alloc);
        files.push(own.try_clone()?)?;
        Ok(Listing {
            files,
            seen: BTreeSet::new(alloc),
        })
    }

    // Adds a name, unless it is listed.
    fn add(&mut self, alloc: Global, name: &Name) -> Result<(), AllocError>
        ensures listed { OnOk result ((own : List ℕ) (names : List (List ℕ)) → HasListed own names self.old →
            HasListed own (names ++ name.now ∷ []) self.new) }
    {
        if self.seen.insert(String::from_str(alloc, name.as_str())?)? {
            self.files.push(name.try_clone()?)?;
        }
        Ok(())
    }
}

// The own name and some others, each once, for any names: each is looked up in a set of those before it.
fn looked_up(alloc: Global, own: &Name, names: &[Name]) -> Result<Names, AllocError>
    ensures listed { IfOk result (λ files. files ≡ own.now ∷ distinct names.now) }
{
    let mut listing = Listing::new(alloc, own)?;
    for name in names {
        listing.add(alloc, name)?;
    }
    Ok(listing.files)
}

// The own name and some others, each once. Names that stand again are found by their hashes; where two that differ have
// one hash, by hashes with a key of these names, and only where two have one then, too, is each looked up.
fn distinct_files(alloc: Global, own: &Name, names: &[Name]) -> Result<Names, AllocError>
    ensures listed { IfOk result (λ files. files ≡ own.now ∷ distinct names.now) }
{
    if let Some(files) = told_apart(alloc, 0, own, names)? {
        return Ok(files);
    }
    if let Some(files) = told_apart(alloc, key_of(names), own, names)? {
        return Ok(files);
    }
    looked_up(alloc, own, names)
}

// The files that were gathered, each once.
#[tactic(auto, using(crate::proofs::Gatherings::listed_apart, crate::proofs::Gatherings::listed_once))]
fn listed(alloc: Global, own: &Name, gathered: Gathered) -> Result<Names, AllocError>
    ensures listed { IfOk result (λ files. (names : List (List ℕ)) → HasGathered own.now names gathered →
        files ≡ own.now ∷ distinct names) }
{
    let Gathered { files, rising } = gathered;
    if are_apart(alloc, rising, behind_first(files.as_slice()))? {
        return Ok(files);
    }
    distinct_files(alloc, own, behind_first(files.as_slice()))
}

// The name of a source, if it is within the limit.
fn source_name(alloc: Global, base: &Name, source: &Source) -> Result<Option<Name>, WalkFault>
    ensures ok { IfOk result (λ name. name ≡ source_name base.now source.now) }
    ensures err { IfErr result IsMemory }
{
    match resolve(alloc, base, source) {
        Ok(name) => Ok(Some(name)),
        Err(NameFault::TooLong) => Ok(None),
        Err(_) => Err(WalkFault::Memory),
    }
}

/// Whether two sources name the same file by the same text.
pub fn is_same_file(last: &Source, source: &Source) -> bool
    ensures relative { result ≡ true → source.now.relative ≡ last.now.relative }
    ensures file { result ≡ true → source.now.file ≡ last.now.file }
{
    if source.relative != last.relative {
        return false;
    }
    source.file.is(&last.file)
}

// Whether the source at a place names the file of the one before it. Its name is there already.
fn is_again(sources: &[Source], at: usize, source: &Source) -> bool
    requires within { at < length sources.now }
    ensures again { result ≡ true → (base : List ℕ) → IsThere base (take at sources.now) source.now }
{
    if at == 0 {
        return false;
    }
    is_same_file(&sources[at - 1], source)
}

// Adds the name of the source at a place. That of the source before it is not resolved once more.
fn add_source(
    alloc: Global,
    base: &Name,
    sources: &[Source],
    at: usize,
    gathered: &mut Gathered,
) -> Result<(), WalkFault>
    requires within { at < length sources.now }
    ensures gathered { OnOk result ((own : List ℕ) (names : List (List ℕ)) →
        HasGathered own (names ++ filter_map (source_name base.now) (take at sources.now)) gathered.old →
        HasGathered own (names ++ filter_map (source_name base.now) (take (at + 1) sources.now)) gathered.new) }
    ensures err { IfErr result IsMemory }
{
    let source = &sources[at];
    if is_again(sources, at, source) {
        return Ok(());
    }
    if let Some(name) = source_name(alloc, base, source)? {
        gathered.add(name)?;
    }
    Ok(())
}

// Adds the names of the sources of a band.
fn add_sources(
    alloc: Global,
    base: &Name,
    sources: &[Source],
    gathered: &mut Gathered,
) -> Result<(), WalkFault>
    ensures gathered { OnOk result ((own : List ℕ) (names : List (List ℕ)) → HasGathered own names gathered.old →
        HasGathered own (names ++ filter_map (source_name base.now) sources.now) gathered.new) }
    ensures err { IfErr result IsMemory }
{
    for at in 0..sources.len() {
        add_source(alloc, base, sources, at, gathered)?;
    }
    Ok(())
}

// The files of a mosaic.
fn mosaic_files(alloc: Global, name: &Name, document: &Document) -> Result<Names, WalkFault>
    ensures ok { IfOk result (λ files. files ≡ name.now ∷ source_names name.now document.now) }
    ensures err { IfErr result IsMemory }
{
    let mut gathered = Gathered::new(alloc, name)?;
    for band in document.bands.as_slice() {
        add_sources(alloc, name, band.sources.as_slice(), &mut gathered)?;
    }
    Ok(listed(alloc, name, gathered)?)
}

// A band of a mosaic of this size.
fn mosaic_band(size: Size, band: &VrtBand) -> BandHead
    ensures { result ≡ mosaic_band size band.now }
{
    BandHead {
        kind: band.kind,
        nodata: band.nodata,
        block: Size {
            w: SQUARE_SIDE,
            h: SQUARE_SIDE,
        },
    }
}

// The bands of a mosaic.
fn mosaic_bands(alloc: Global, document: &Document) -> Result<Bands, AllocError>
    ensures { IfOk result (λ bands. bands ≡ map (mosaic_band document.now.size) document.now.bands) }
{
    let mut bands = Items::new(alloc);
    for band in document.bands.as_slice() {
        bands.push(mosaic_band(document.size, band))?;
    }
    Ok(bands)
}

// The same text once more, where there is one.
fn copied(text: &Option<Text>) -> Result<Option<Text>, AllocError>
    ensures { IfOk result (λ new. new ≡ text.now) }
{
    match text {
        Some(text) => Ok(Some(text.try_clone()?)),
        None => Ok(None),
    }
}

/// What the document of a mosaic says of the dataset of its name. Its files are its own name and then
/// the distinct names of its sources, in document order. A source whose name would pass 4,096 bytes is
/// passed over: `names_within` refuses it.
#[tactic(auto, using(crate::proofs::Mosaics::mosaic_valid))]
pub fn mosaic_head(alloc: Global, name: &Name, document: &Document) -> Result<Head, WalkFault>
    ensures ok { IfOk result (λ h. h ≡ mosaic_head name.now document.now) }
    ensures valid { IfOk result IsDatasetHead }
    ensures err { IfErr result IsMemory }
{
    document.rules();
    let files = mosaic_files(alloc, name, document)?;
    let bands = mosaic_bands(alloc, document)?;
    let srs = copied(&document.srs)?;
    let name = name.try_clone()?;
    Ok(Head {
        name,
        kind: Kind::Vrt,
        size: document.size,
        geo: document.geo,
        srs,
        bands,
        files,
    })
}

// Refuses the first source whose name isn't within the limit.
fn sources_within(base: &Name, sources: &[Source]) -> Result<(), WalkFault>
    ensures { result ≡ all_resolved base.now sources.now }
{
    for source in sources {
        let length = resolved_len(base, source);
        if length > LONGEST_NAME {
            return Err(WalkFault::Limit {
                what: LimitKind::Name,
                value: length,
            });
        }
    }
    Ok(())
}

// Refuses the first source of all bands whose name isn't within the limit.
fn bands_within(base: &Name, bands: &[VrtBand]) -> Result<(), WalkFault>
    ensures { result ≡ all_resolved base.now (flat_map (λ b. b.sources) bands.now) }
{
    for band in bands {
        sources_within(base, band.sources.as_slice())?;
    }
    Ok(())
}

/// Refuses the first source of a mosaic, in document order, whose name isn't within the limit: Limit
/// with the kind Name and the length of the text that would be normalised. It takes no memory.
pub fn names_within(name: &Name, content: &Content) -> Result<(), WalkFault>
    ensures { result ≡ names_within name.now content.now }
{
    match content {
        Content::File(_) => Ok(()),
        Content::Mosaic(document) => bands_within(name, document.bands.as_slice()),
    }
}
