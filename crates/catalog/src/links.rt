// What a walk keeps of what it has met.
ghost use Rattle.std.specs.Prelude.{◌≡◌, ◌<◌, ◌≤◌, ◌+◌, ◌-◌, ℕ, suc, List, [], length, All, slice_get, bytes_eq};
ghost use Rattle.std.specs.Prelude.{Option, Some, None, option_map, if◌then◌else◌, IfOk, IfErr, OnOk, OnErr, max};
ghost use Rattle.std.specs.Option.{option_or};
ghost use Rattle.std.specs.BTreeMap.{get_by_text};
ghost use Rattle.lists_and_answers.specs.Answers.{Gives};
ghost use Rattle.lists_and_answers.specs.Lists.{flattened};
ghost use Rattle.catalog.specs.Outcomes.{IsMemory};
ghost use Rattle.catalog.specs.Drivers.{Dataset as Known};
ghost use Rattle.catalog.specs.Walking.{IsOrdinaryFault};
ghost use Rattle.catalog.specs.Dataset.{band_count, band_at, most_datasets, most_nestings};
ghost use Rattle.catalog.specs.Walk.{is_narrow_band, dataset_number_in, one_more_source};
ghost use Rattle.catalog.specs.Linked.{State, IsLinked, IsHigh, IsDeep, Grows, HasBand, IsMosaicAt, pushed, met_whole};
ghost use Rattle.catalog.specs.Linked.{one_counted, cut_to, height_at, most, first_above};

use crate::dataset::Dataset;
use crate::driver::Content;
use crate::{LimitKind, WalkFault};
use lists_and_answers::Items;
use outside::Name;
use std::alloc::{AllocError, Global};
use std::collections::BTreeMap;
use std::marker::Model;
use vrt_profile::{Document, VrtBand};

/// The most sources of all mosaics of a catalog: as many as one document has at most.
pub const MOST_SOURCES: u32 = vrt_profile::MOST_SOURCES as u32;

/// The number of the first source that is one too many.
const TOO_MANY: u64 = MOST_SOURCES as u64 + 1;

/// The numbers of the datasets that the sources of a band name, in order.
pub type Members = Items<u32>;

/// What is kept of a dataset that was met whole: how deep it is nested, and the numbers of the datasets
/// that its sources name, by band and source.
#[derive(Drop)]
pub struct Link {
    /// 0 for a file, else one more than the greatest height of what the sources name.
    pub height: u32,
    pub members: Items<Members>,
}

/// What a walk has met: the datasets in the order in which they were first met, the link of each that
/// was met whole, and the number of the sources. A mosaic has no link while the walk is below it.
#[derive(Drop)]
pub struct Met {
    datasets: Vec<Dataset>,
    // The number of each dataset, under its name.
    numbers: BTreeMap<String, u32>,
    links: Vec<Option<Link>>,
    sources: u32,
}

impl Link {
    /// The link of a file.
    pub fn of_file(alloc: Global) -> Link
        ensures file { result ≡ record { height = 0; members = [] } }
    {
        Link {
            height: 0,
            members: Items::new(alloc),
        }
    }
}

impl Model for Met {
    ghost use Rattle.std.specs.Prelude.{◌≡◌, List, ℕ};
    ghost use Rattle.std.specs.BTreeMap.{get_by_text};
    ghost use Rattle.catalog.specs.Walk.{dataset_number_in};
    ghost use Rattle.catalog.specs.Linked.{State};

    ghost Value = { State };

    ghost view = { λ m. record { datasets = m.datasets.items; links = m.links.items; sources = m.sources } };

    ghost invariant = { λ m. (name : List ℕ) → get_by_text m.numbers name ≡ dataset_number_in m.datasets.items name };
}

// Keeps the number of a dataset under its name, unless the name has one. Where memory is refused,
// nothing changes.
fn keep_number(
    numbers: &mut BTreeMap<String, u32>,
    alloc: Global,
    dataset: &Dataset,
    number: u32,
) -> Result<(), AllocError>
    ensures ok { OnOk result ((name : List ℕ) → get_by_text numbers.new name ≡ option_or (get_by_text numbers.old name)
        (if bytes_eq dataset.now.head.name name then Some number else None)) }
    ensures err { OnErr result (numbers.new.entries ≡ numbers.old.entries) }
{
    let key = String::from_str(alloc, dataset.head.name.as_str())?;
    numbers.entry(key)?.or_insert(number);
    Ok(())
}

impl Met {
    /// Nothing is met; it takes no memory.
    pub fn new(alloc: Global) -> Met
        ensures empty { result ≡ record { datasets = []; links = []; sources = 0 } }
    {
        Met {
            datasets: Vec::new(alloc),
            numbers: BTreeMap::new(alloc),
            links: Vec::new(alloc),
            sources: 0,
        }
    }

    /// The number of datasets.
    pub fn count(&self) -> u32
        requires few { length self.now.datasets ≤ most_datasets }
        ensures count { result ≡ length self.now.datasets }
    {
        self.datasets.len() as u32
    }

    /// The number of sources.
    pub fn sources(&self) -> u32
        ensures sources { result ≡ self.now.sources }
    {
        self.sources
    }

    /// The number of the dataset of a name.
    pub fn number(&self, name: &Name) -> Option<u32>
        requires few { length self.now.datasets ≤ most_datasets }
        ensures number { result ≡ dataset_number_in self.now.datasets name.now }
    {
        self.numbers.get(name.as_str()).copied()
    }

    /// A dataset by its number.
    pub fn dataset(&self, id: u32) -> &Dataset
        requires known { id < length self.now.datasets }
        ensures dataset { slice_get self.now.datasets id ≡ Some result.now }
    {
        &self.datasets[id as usize]
    }

    /// The name of a dataset.
    pub fn name(&self, id: u32) -> &Name
        requires known { id < length self.now.datasets }
        ensures name { (d : Known) → slice_get self.now.datasets id ≡ Some d → result.now ≡ d.head.name }
    {
        &self.dataset(id).head.name
    }

    /// The number of bands of a dataset.
    pub fn band_count(&self, id: u32) -> usize
        requires known { id < length self.now.datasets }
        ensures bands { (d : Known) → slice_get self.now.datasets id ≡ Some d → result ≡ band_count d.head }
    {
        self.dataset(id).head.bands.len()
    }

    /// Whether the samples of a band of a dataset, counted from 1, have at most 32 bits.
    pub fn is_narrow(&self, id: u32, band: u32) -> bool
        requires known { id < length self.now.datasets }
        ensures narrow { (d : Known) → slice_get self.now.datasets id ≡ Some d →
            result ≡ is_narrow_band (band_at d.head (band - 1)) }
    {
        let at = (band as usize).saturating_sub(1);
        match self.dataset(id).head.bands.as_slice().get(at) {
            None => true,
            Some(band) => band.kind.bytes() <= 4,
        }
    }

    /// The link of a dataset, if it was met whole.
    pub fn link(&self, id: u32) -> Option<&Link>
        requires known { id < length self.now.links }
        ensures link { slice_get self.now.links id ≡ Some (option_map (λ l. l.now) result) }
    {
        self.links[id as usize].as_ref()
    }

    /// The height of a dataset that was met whole.
    pub fn height(&self, id: u32) -> u32
        requires known { id < length self.now.links }
        ensures height { result ≡ height_at self.now.links id }
    {
        match self.link(id) {
            Some(link) => link.height,
            None => 0,
        }
    }

    /// Adds a dataset. Where memory is refused, what was met stays.
    pub fn push(&mut self, dataset: Dataset, link: Option<Link>) -> Result<u32, AllocError>
        requires few { length self.old.datasets ≤ most_datasets }
        ensures ok { OnOk result (self.new ≡ pushed self.old dataset link) }
        ensures id { IfOk result (λ id. id ≡ length self.old.datasets) }
        ensures grows { Grows self.old self.new }
    {
        let id = self.datasets.len() as u32;
        let alloc = *self.datasets.allocator();
        if let Err(failed) = self.links.push(link) {
            drop(dataset);
            return Err(failed.into());
        }
        if let Err(error) = self.datasets.reserve(1) {
            drop(dataset);
            return Err(error);
        }
        if let Err(error) = keep_number(&mut self.numbers, alloc, &dataset, id) {
            drop(dataset);
            return Err(error);
        }
        // There is room: no number is kept without its dataset.
        self.datasets.push(dataset)?;
        Ok(id)
    }

    /// Gives a mosaic its link, by the rows of what its sources name.
    pub fn close(&mut self, id: u32, members: Items<Members>)
        requires known { id < length self.old.links }
        requires rows { All (λ row. All (λ id. id < length self.old.links) row) members }
        requires low { most self.old.links (flattened members) < most_nestings }
        ensures closed { self.new ≡ met_whole self.old id
            (record { height = suc (most self.old.links (flattened members)); members = members }) }
    {
        let height = self.highest(members.as_slice()) + 1;
        self.links[id as usize] = Some(Link { height, members });
    }

    /// Forgets what was met behind this many datasets, and sets the number of sources.
    pub fn cut(&mut self, count: u32, sources: u32)
        ensures cut { self.new ≡ cut_to self.old count sources }
    {
        self.datasets.truncate(count as usize);
        self.numbers.retain(|_, number| *number < count);
        self.links.truncate(count as usize);
        self.sources = sources;
    }

    /// Counts one source more. Limit comes exactly where there would be more than 262,144.
    pub fn count_source(&mut self) -> Result<(), WalkFault>
        ensures told { Gives IsMemory (λ _. tt) result (one_more_source self.old.sources) }
        ensures plain { IfErr result IsOrdinaryFault }
        ensures ok { OnOk result (self.new ≡ one_counted self.old) }
        ensures err { OnErr result (self.new ≡ self.old) }
    {
        if self.sources >= MOST_SOURCES {
            return Err(WalkFault::Limit {
                what: LimitKind::Sources,
                value: TOO_MANY,
            });
        }
        self.sources += 1;
        Ok(())
    }

    /// The document of a mosaic.
    pub fn document(&self, id: u32) -> &Document
        requires there { IsMosaicAt self.now id }
        ensures document { (w : IsMosaicAt self.now id) → result.now ≡ w.document }
    {
        match &self.datasets[id as usize].content {
            Content::File(_) => unreachable!(),
            Content::Mosaic(document) => document,
        }
    }

    /// A band of a mosaic.
    pub fn band(&self, id: u32, band: usize) -> &VrtBand
        requires there { HasBand self.now id band }
        ensures band { (w : HasBand self.now id band) → result.now ≡ w.value }
    {
        self.document(id).bands.get(band)
    }

    // The greatest height of some datasets, or 0.
    #[tactic(auto, using(crate::proofs::Rows::most_step))]
    fn highest_in(&self, ids: &[u32]) -> u32
        requires known { All (λ id. id < length self.now.links) ids.now }
        ensures highest { result ≡ most self.now.links ids.now }
    {
        let mut height = 0;
        for id in ids {
            height = height.max(self.height(*id));
        }
        height
    }

    /// The greatest height of the datasets of some rows, or 0.
    #[tactic(auto, using(crate::proofs::Rows::most_rows))]
    pub fn highest(&self, rows: &[Members]) -> u32
        requires known { All (λ row. All (λ id. id < length self.now.links) row) rows.now }
        ensures highest { result ≡ most self.now.links (flattened rows.now) }
    {
        let mut height = 0;
        for row in rows {
            height = height.max(self.highest_in(row.as_slice()));
        }
        height
    }

    // The first of some datasets whose height is above this.
    #[tactic(auto, using(crate::proofs::Rows::above_passed, crate::proofs::Rows::above_met))]
    fn first_above_in(&self, ids: &[u32], room: u32) -> Option<u32>
        requires known { All (λ id. id < length self.now.links) ids.now }
        ensures first { result ≡ first_above self.now.links room ids.now }
    {
        for id in ids {
            if self.height(*id) > room {
                return Some(*id);
            }
        }
        None
    }

    // The first of the datasets of some rows whose height is above this.
    #[tactic(auto, using(crate::proofs::Rows::row_passed, crate::proofs::Rows::row_met))]
    fn first_above(&self, rows: &[Members], room: u32) -> Option<u32>
        requires known { All (λ row. All (λ id. id < length self.now.links) row) rows.now }
        ensures first { result ≡ first_above self.now.links room (flattened rows.now) }
    {
        for row in rows {
            if let Some(id) = self.first_above_in(row.as_slice(), room) {
                return Some(id);
            }
        }
        None
    }

    /// The mosaic with which the checks of a dataset end that is higher than there is room.
    pub fn deepest(&self, id: u32, room: u32) -> u32
        requires linked { IsLinked self.now }
        requires high { IsHigh self.now id room }
        ensures known { result < length self.now.datasets }
        ensures deep { (d : Known) → slice_get self.now.datasets result ≡ Some d → IsDeep self.now room id d.head.name }
    {
        if room == 0 {
            return id;
        }
        let Some(link) = self.link(id) else {
            unreachable!();
        };
        let Some(next) = self.first_above(link.members.as_slice(), room - 1) else {
            unreachable!();
        };
        self.deepest(next, room - 1)
    }
}
