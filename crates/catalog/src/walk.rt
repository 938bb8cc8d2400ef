// The walk from a name to all that it reaches.
ghost use Rattle.std.specs.Prelude.{◌≡◌, ◌<◌, ◌≤◌, ◌∷◌, ◌||◌, [], ℕ, List, Bool, Some, None, length, slice_get, Ok};
ghost use Rattle.std.specs.Prelude.{IfOk, IfErr, IfSome, OnOk, true};
ghost use Rattle.lists_and_answers.specs.Answers.{Gives};
ghost use Rattle.outside.specs.Outside.{Files};
ghost use Rattle.catalog.specs.Outcomes.{IsMemory};
ghost use Rattle.catalog.specs.Dataset.{most_nestings};
ghost use Rattle.catalog.specs.Mosaics.{sources_of};
ghost use Rattle.catalog.specs.Heads.{kind_in, resolved};
ghost use Rattle.catalog.specs.Drivers.{Dataset as Known};
ghost use Rattle.catalog.specs.Walk.{dataset_number_in, dataset_named, band_named, is_narrow_band, room_for};
ghost use Rattle.catalog.specs.Walk.{unless_no_band};
ghost use Rattle.catalog.specs.Walk.{unless_no_samples, unless_wide, visit};
ghost use Rattle.vrt_profile.specs.Value.{is_plain};
ghost use Rattle.catalog.specs.Linked.{IsLinked, IsPath, IsLow, IsMosaicAt, HasBand, HasSource, met_of};
ghost use Rattle.catalog.specs.Walking.{IsOrdinaryFault, MeetsName, Visits, Passes, Names, Reaches, ReachesRows};
ghost use Rattle.catalog.specs.Walking.{folder_seen};
ghost use Rattle.catalog.specs.Walking.{IsWalkedUpTo, IsMetLow};

use crate::driver::Content;
use crate::kind::kind_of;
use crate::links::{Link, Members, Met};
use crate::mosaic_head::is_same_file;
use crate::own_files::read_dataset;
use crate::{Bad, Kind, LimitKind, WalkFault};
use lists_and_answers::Items;
use outside::{Folder, Name, NameFault};
use std::alloc::Global;
use vrt_profile::{Source, VrtFault, resolve, resolved_len};

/// The most datasets of a catalog.
pub const MOST_DATASETS: u32 = 65_536;

/// The number of the first dataset that is one too many.
const TOO_MANY: u64 = MOST_DATASETS as u64 + 1;

// How the visit of a name goes on: the dataset of this number was met whole, or it is a mosaic that was
// met for the first time, and the walk goes through its sources.
enum Meeting {
    Whole(u32),
    Open(u32),
}

// A source: the mosaic's number, the band and the source in the band, each counted from 0.
#[derive(Clone, Copy)]
struct SourceAt {
    id: u32,
    band: usize,
    source: usize,
}

// What a source names, which of its bands, and whether its samples are given as they are.
#[derive(Drop)]
struct Wanted {
    name: Name,
    band: u32,
    plain: bool,
}

// What a source of a mosaic names. Limit comes exactly where the text of the name has more than 4,096
// bytes.
fn resolve_source(alloc: Global, met: &Met, at: SourceAt) -> Result<Wanted, WalkFault>
    requires there { HasSource met.now at.id at.band at.source }
    ensures told { (w : HasSource met.now at.id at.band at.source) → Gives IsMemory (λ r. r.name) result
        (resolved w.of.mosaic.dataset.head.name w.value) }
    ensures band { (w : HasSource met.now at.id at.band at.source) → IfOk result (λ r. r.band ≡ w.value.band) }
    ensures kept { (w : HasSource met.now at.id at.band at.source) → IfOk result (λ r. r.plain ≡ is_plain w.value) }
    ensures plain { IfErr result IsOrdinaryFault }
{
    let base = met.name(at.id);
    let source = met.band(at.id, at.band).sources.get(at.source);
    match resolve(alloc, base, source) {
        Ok(name) => Ok(Wanted {
            name,
            band: source.band,
            plain: source.is_plain(),
        }),
        Err(NameFault::TooLong) => Err(WalkFault::Limit {
            what: LimitKind::Name,
            value: resolved_len(base, source),
        }),
        Err(NameFault::Memory) => Err(WalkFault::Memory),
        Err(NameFault::Empty) => unreachable!(),
    }
}

// The dataset that a source names has the band that it names.
fn check_band(met: &Met, member: u32, wanted: &Wanted) -> Result<(), WalkFault>
    requires number { dataset_number_in met.now.datasets wanted.now.name ≡ Some member }
    ensures told { Gives IsMemory (λ _. tt) result (unless_no_band met.now.datasets wanted.now.name wanted.now.band) }
    ensures plain { IfErr result IsOrdinaryFault }
{
    if wanted.band as usize > met.band_count(member) {
        return Err(WalkFault::SourceBand {
            name: wanted.name.try_clone()?,
            band: wanted.band,
        });
    }
    Ok(())
}

// Whether the samples of the band that a source names have at most 32 bits.
fn names_narrow(met: &Met, member: u32, wanted: &Wanted) -> bool
    requires number { dataset_number_in met.now.datasets wanted.now.name ≡ Some member }
    ensures narrow { result ≡ is_narrow_band (band_named (dataset_named met.now.datasets wanted.now.name)
        wanted.now.band) }
{
    met.is_narrow(member, wanted.band)
}

// Whether a source takes the samples of the band that it names: those that it scales, or has a table for, have at
// most 32 bits.
fn takes_samples(met: &Met, member: u32, wanted: &Wanted) -> bool
    requires number { dataset_number_in met.now.datasets wanted.now.name ≡ Some member }
    ensures takes { result ≡ (wanted.now.plain || is_narrow_band (band_named
        (dataset_named met.now.datasets wanted.now.name) wanted.now.band)) }
{
    wanted.plain || names_narrow(met, member, wanted)
}

// A mosaic, whose number this is, that doesn't take the samples of what its source names isn't one that is read.
fn check_width(met: &Met, id: u32, member: u32, wanted: &Wanted) -> Result<(), WalkFault>
    requires known { id < length met.now.datasets }
    requires number { dataset_number_in met.now.datasets wanted.now.name ≡ Some member }
    ensures told { (d : Known) → slice_get met.now.datasets id ≡ Some d →
        Gives IsMemory (λ _. tt) result (unless_wide met.now.datasets d.head.name wanted.now.name wanted.now.band
        wanted.now.plain) }
    ensures plain { IfErr result IsOrdinaryFault }
{
    if takes_samples(met, member, wanted) {
        return Ok(());
    }
    Err(WalkFault::Malformed {
        name: met.name(id).try_clone()?,
        bad: Bad::Vrt(VrtFault::Unsupported),
    })
}

// What a source of the mosaic of this number names has the band that it names, with samples that it takes.
fn check_samples(met: &Met, id: u32, member: u32, wanted: &Wanted) -> Result<(), WalkFault>
    requires known { id < length met.now.datasets }
    requires number { dataset_number_in met.now.datasets wanted.now.name ≡ Some member }
    ensures told { (d : Known) → slice_get met.now.datasets id ≡ Some d →
        Gives IsMemory (λ _. tt) result (unless_no_samples met.now.datasets d.head.name wanted.now.name wanted.now.band
        wanted.now.plain) }
    ensures plain { IfErr result IsOrdinaryFault }
{
    check_band(met, member, wanted)?;
    check_width(met, id, member, wanted)
}

// The checks of a name that was met earlier, by its height: the datasets below it aren't gone through.
fn check_again(met: &Met, id: u32, room: u32, name: &Name) -> Result<(), WalkFault>
    requires linked { IsLinked met.now }
    requires number { dataset_number_in met.now.datasets name.now ≡ Some id }
    ensures told { (m : Files) (verify : Bool) (path : List (List ℕ)) → IsPath met.now path →
        Gives IsMemory (λ _. met_of met.now) result (visit m verify room path (met_of met.now) name.now) }
    ensures low { OnOk result (IsLow met.now id room) }
    ensures plain { IfErr result IsOrdinaryFault }
{
    match met.link(id) {
        None => Err(WalkFault::Cycle {
            name: name.try_clone()?,
        }),
        Some(link) if link.height <= room => Ok(()),
        Some(_) => {
            let deepest = met.deepest(id, room);
            Err(WalkFault::TooDeep {
                name: met.name(deepest).try_clone()?,
            })
        }
    }
}

// Counts a source of a mosaic, and resolves what it names.
fn count_and_resolve(alloc: Global, met: &mut Met, at: SourceAt) -> Result<Wanted, WalkFault>
    requires there { HasSource met.old at.id at.band at.source }
    ensures names { (w : HasSource met.old at.id at.band at.source) → Names w.of.mosaic.dataset.head.name w.value
        met.old met.new result }
{
    met.count_source()?;
    resolve_source(alloc, met, at)
}

// Reads the dataset of a name that is met for the first time; a mosaic is open then.
fn meet_first<F: Folder>(
    alloc: Global,
    met: &mut Met,
    folder: &mut F,
    verify: bool,
    room: u32,
    kind: Kind,
    name: &Name,
) -> Result<Meeting, WalkFault>
    requires linked { IsLinked met.old }
    requires room { room ≤ most_nestings }
    requires kind { kind_in name.now ≡ Ok kind }
    requires shallow { room_for room kind name.now ≡ Ok tt }
    requires fresh { dataset_number_in met.old.datasets name.now ≡ None }
    ensures meets { MeetsName verify room name.now (folder_seen (F.names folder.old) (F.write_calls folder.old)
        (F.read_calls folder.old) (F.faults folder.old)) (folder_seen (F.names folder.new) (F.write_calls folder.new)
        (F.read_calls folder.new) (F.faults folder.new)) met.old met.new result }
{
    if met.count() >= MOST_DATASETS {
        return Err(WalkFault::Limit {
            what: LimitKind::Files,
            value: TOO_MANY,
        });
    }
    let dataset = read_dataset(alloc, folder, kind, name, verify)?;
    if let Content::File(_) = &dataset.content {
        let id = met.push(dataset, Some(Link::of_file(alloc)))?;
        return Ok(Meeting::Whole(id));
    }
    let id = met.push(dataset, None)?;
    Ok(Meeting::Open(id))
}

// Begins the visit of a name.
fn meet<F: Folder>(
    alloc: Global,
    met: &mut Met,
    folder: &mut F,
    verify: bool,
    room: u32,
    name: &Name,
) -> Result<Meeting, WalkFault>
    requires linked { IsLinked met.old }
    requires room { room ≤ most_nestings }
    ensures meets { MeetsName verify room name.now (folder_seen (F.names folder.old) (F.write_calls folder.old)
        (F.read_calls folder.old) (F.faults folder.old)) (folder_seen (F.names folder.new) (F.write_calls folder.new)
        (F.read_calls folder.new) (F.faults folder.new)) met.old met.new result }
{
    if let Some(id) = met.number(name) {
        check_again(met, id, room, name)?;
        return Ok(Meeting::Whole(id));
    }
    let kind = kind_of(name)?;
    if room == 0 && kind == Kind::Vrt {
        return Err(WalkFault::TooDeep {
            name: name.try_clone()?,
        });
    }
    meet_first(alloc, met, folder, verify, room, kind, name)
}

// Whether two sources take the same band of the same file, and both give its samples as they are or neither does.
fn is_same_band(last: &Source, source: &Source) -> bool
    ensures relative { result ≡ true → source.now.relative ≡ last.now.relative }
    ensures file { result ≡ true → source.now.file ≡ last.now.file }
    ensures band { result ≡ true → source.now.band ≡ last.now.band }
    ensures plain { result ≡ true → is_plain source.now ≡ is_plain last.now }
{
    if source.band != last.band || source.is_plain() != last.is_plain() {
        return false;
    }
    is_same_file(last, source)
}

// The dataset that a source names, where the source before it takes the same band: the last one of those that were
// visited for the sources before it.
fn visited(met: &Met, at: SourceAt, row: &Members) -> Option<u32>
    requires there { HasSource met.now at.id at.band at.source }
    ensures again { IfSome result (λ id. (room : ℕ) → IsWalkedUpTo met.now room at.id at.band at.source row.now →
        (w : HasSource met.now at.id at.band at.source) →
        IsMetLow met.now room w.of.mosaic.dataset.head.name w.value id) }
{
    let count = row.len();
    if count == 0 || count != at.source {
        return None;
    }
    let sources = &met.band(at.id, at.band).sources;
    if !is_same_band(sources.get(count - 1), sources.get(at.source)) {
        return None;
    }
    Some(*row.get(count - 1))
}

// Visits what a source of a mosaic names, after it is counted; then the band must be there, with samples that the
// source takes. All this but the
// count was done for the source before it where that takes the same band of the same file.
#[cycle(walk)]
fn visit_source<F: Folder>(
    alloc: Global,
    met: &mut Met,
    folder: &mut F,
    verify: bool,
    room: u32,
    at: SourceAt,
    row: &Members,
) -> Result<u32, WalkFault>
    requires linked { IsLinked met.old }
    requires room { room < most_nestings }
    requires there { HasSource met.old at.id at.band at.source }
    requires row { IsWalkedUpTo met.old room at.id at.band at.source row.now }
    ensures passes { (w : HasSource met.old at.id at.band at.source) → Passes verify room w.of.mosaic.dataset.head.name
        (w.value ∷ []) (folder_seen (F.names folder.old) (F.write_calls folder.old) (F.read_calls folder.old)
        (F.faults folder.old)) (folder_seen (F.names folder.new) (F.write_calls folder.new) (F.read_calls folder.new)
        (F.faults folder.new)) met.old met.new (λ t. Reaches met.new room w.of.mosaic.dataset.head.name (w.value ∷ [])
        (t ∷ [])) result }
{
    if let Some(member) = visited(met, at, row) {
        met.count_source()?;
        return Ok(member);
    }
    let wanted = count_and_resolve(alloc, met, at)?;
    let member = visit(alloc, met, folder, verify, room, &wanted.name)?;
    check_samples(met, at.id, member, &wanted)?;
    Ok(member)
}

// Visits what the sources of a band of a mosaic name.
#[cycle(walk)]
fn visit_band<F: Folder>(
    alloc: Global,
    met: &mut Met,
    folder: &mut F,
    verify: bool,
    room: u32,
    id: u32,
    band: usize,
) -> Result<Members, WalkFault>
    requires linked { IsLinked met.old }
    requires room { room < most_nestings }
    requires there { HasBand met.old id band }
    ensures passes { (w : HasBand met.old id band) → Passes verify room w.mosaic.dataset.head.name w.value.sources
        (folder_seen (F.names folder.old) (F.write_calls folder.old) (F.read_calls folder.old) (F.faults folder.old))
        (folder_seen (F.names folder.new) (F.write_calls folder.new) (F.read_calls folder.new) (F.faults folder.new))
        met.old met.new (λ row. Reaches met.new room w.mosaic.dataset.head.name w.value.sources row) result }
{
    let mut row = Items::new(alloc);
    let count = met.band(id, band).sources.len();
    for source in 0..count {
        let at = SourceAt { id, band, source };
        let member = visit_source(alloc, met, folder, verify, room, at, &row)?;
        row.push(member)?;
    }
    Ok(row)
}

// Visits what the sources of a mosaic name.
#[cycle(walk)]
fn visit_bands<F: Folder>(
    alloc: Global,
    met: &mut Met,
    folder: &mut F,
    verify: bool,
    room: u32,
    id: u32,
) -> Result<Items<Members>, WalkFault>
    requires linked { IsLinked met.old }
    requires room { room < most_nestings }
    requires there { IsMosaicAt met.old id }
    ensures passes { (w : IsMosaicAt met.old id) → Passes verify room w.dataset.head.name (sources_of w.document)
        (folder_seen (F.names folder.old) (F.write_calls folder.old) (F.read_calls folder.old) (F.faults folder.old))
        (folder_seen (F.names folder.new) (F.write_calls folder.new) (F.read_calls folder.new) (F.faults folder.new))
        met.old met.new (λ rows. ReachesRows met.new room w.dataset.head.name w.document.bands rows) result }
{
    let mut rows = Items::new(alloc);
    let count = met.document(id).bands.len();
    for band in 0..count {
        let row = visit_band(alloc, met, folder, verify, room, id, band)?;
        rows.push(row)?;
    }
    Ok(rows)
}

/// Visits a name, with room for so many mosaics more on the path that leads to it. A name that was met
/// earlier isn't read again: its height tells whether there is room for it.
#[cycle(walk)]
pub fn visit<F: Folder>(
    alloc: Global,
    met: &mut Met,
    folder: &mut F,
    verify: bool,
    room: u32,
    name: &Name,
) -> Result<u32, WalkFault>
    requires linked { IsLinked met.old }
    requires room { room ≤ most_nestings }
    ensures visits { Visits verify room name.now (folder_seen (F.names folder.old) (F.write_calls folder.old)
        (F.read_calls folder.old) (F.faults folder.old)) (folder_seen (F.names folder.new) (F.write_calls folder.new)
        (F.read_calls folder.new) (F.faults folder.new)) met.old met.new result }
{
    let meeting = meet(alloc, met, folder, verify, room, name)?;
    match meeting {
        Meeting::Whole(id) => Ok(id),
        Meeting::Open(id) => {
            let members = visit_bands(alloc, met, folder, verify, room - 1, id)?;
            met.close(id, members);
            Ok(id)
        }
    }
}
