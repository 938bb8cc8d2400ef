// Which inputs are skipped, and why.
ghost use Rattle.std.specs.Prelude.{◌≡◌, ℕ, ℤ, pos, suc, ◌<ℤ◌, ◌<◌, ◌≤◌, ◌+◌, ◌*◌, ◌^◌, ◌-◌, [], ◌∷◌, length};
ghost use Rattle.std.specs.Prelude.{IfOk, OnOk, IfSome, Option, Some, None, false, true, ◌==◌};
ghost use Rattle.geotransform.specs.Geo.{IsTransform};
ghost use Rattle.geotransform.specs.Types.{is_same, is_in};
ghost use Rattle.catalog.specs.Dataset.{IsDatasetHead, most_datasets};
ghost use Rattle.std.specs.List.{All, range_with_len};
ghost use Rattle.lists_and_answers.specs.Answers.{Gives};
ghost use Rattle.buildvrt.specs.Mosaic.{IsMemory};
ghost use Rattle.buildvrt.specs.Options.{IsBandNumber};
ghost use Rattle.buildvrt.specs.Judging.{north_up, north_up_of, same_text, has_bands, numbered_band, taken_bands};
ghost use Rattle.buildvrt.specs.Judging.{type_number, band_type, same_type, same_types, same_count};
ghost use Rattle.buildvrt.specs.Judging.{judged_alone, judged_beside, joined, one_judged, none_judged, judged_behind};
ghost use Rattle.buildvrt.specs.Judging.{judged_of, IsOneOf, first_refused, strictly};
ghost use Rattle.geotransform.specs.Limits.{most_bands};

use crate::faults::{BuildFault, Reason, SkipList, Skipped};
use crate::options::BuildOptions;
use crate::tile::{Input, Tile};
use catalog::{BandHead, Head};
use geotransform::{GeoTransform, PixelType, is_north_up};
use lists_and_answers::Items;
use outside::Text;
use std::alloc::{AllocError, Global};
use std::marker::Model;

/// The rules that each head keeps.
pub fn head_rules(head: &Head)
    ensures rules { IsDatasetHead head.now }
{
    // The head is read for the proof: what holds of every head is known then.
    let _size = &head.size;
}

// The geotransform, where columns go east and lines go south.
#[tactic(auto, using(crate::proofs::Verdicts::east_and_south))]
fn north_up(geo: GeoTransform) -> Option<GeoTransform>
    ensures place { result ≡ north_up geo }
    ensures rules { IfSome result (λ g. IsTransform g × (pos 0 <ℤ g.dx) × (g.dy <ℤ pos 0)) }
{
    if is_north_up(&geo) { Some(geo) } else { None }
}

fn north_up_of(head: &Head) -> Option<GeoTransform>
    ensures place { result ≡ north_up_of head.now }
    ensures rules { IfSome result (λ g. IsTransform g × (pos 0 <ℤ g.dx) × (g.dy <ℤ pos 0)) }
{
    match head.geo {
        Some(geo) => north_up(geo),
        None => None,
    }
}

fn same_bytes(a: &[u8], b: &[u8]) -> bool
    ensures { result ≡ is_same false a.now b.now }
{
    a == b
}

fn same_text(a: &Option<Text>, b: &Option<Text>) -> bool
    ensures { result ≡ same_text a.now b.now }
{
    match (a, b) {
        (None, None) => true,
        (Some(a), Some(b)) => same_bytes(a.as_str().as_bytes(), b.as_str().as_bytes()),
        _ => false,
    }
}

// Whether a dataset with so many bands has each of these.
fn has_bands(head: &Head, numbers: &[u32]) -> bool
    ensures { result ≡ has_bands head.now numbers.now }
{
    let count = head.bands.len();
    for n in numbers {
        if *n as usize > count {
            return false;
        }
    }
    true
}

/// A band by its number from 1.
pub fn numbered_band(head: &Head, number: u32) -> Option<BandHead>
    requires { 0 < number }
    ensures band { result ≡ numbered_band head.now number }
    ensures rules { IfSome result (λ b. IfSome b.nodata (λ n. is_in b.kind n ≡ true)) }
{
    head_rules(head);
    head.bands.as_slice().get(number as usize - 1).copied()
}

fn type_number(kind: PixelType) -> u32
    ensures { result ≡ type_number kind }
{
    let bytes = kind.bytes() as u32;
    if kind.is_signed() {
        2 * bytes + 1
    } else {
        2 * bytes
    }
}

fn band_type(band: Option<BandHead>) -> u32
    ensures { result ≡ band_type band }
{
    match band {
        None => 0,
        Some(band) => type_number(band.kind),
    }
}

fn same_type(a: &Head, b: &Head, number: u32) -> bool
    requires { 0 < number }
    ensures { result ≡ same_type a.now b.now number }
{
    band_type(numbered_band(a, number)) == band_type(numbered_band(b, number))
}

fn same_types(a: &Head, b: &Head, numbers: &[u32]) -> bool
    requires { All IsBandNumber numbers.now }
    ensures { result ≡ same_types a.now b.now numbers.now }
{
    for n in numbers {
        if !same_type(a, b, *n) {
            return false;
        }
    }
    true
}

fn same_count(options: &BuildOptions, reference: &Head, head: &Head) -> bool
    ensures { result ≡ same_count options.now reference.now head.now }
{
    if options.bands.is_empty() && !options.separate {
        head.bands.len() == reference.bands.len()
    } else {
        true
    }
}

// The numbers from 1 to a count.
#[tactic(auto, using(crate::proofs::Verdicts::numbers_next, crate::proofs::Verdicts::rules_next))]
fn numbers_to(alloc: Global, count: u32) -> Result<Vec<u32>, AllocError>
    requires { count ≤ most_bands }
    ensures numbers { IfOk result (λ v. v.items ≡ range_with_len 1 count) }
    ensures rules { IfOk result (λ v. All IsBandNumber v.items) }
{
    let mut all = Vec::new(alloc);
    for n in 0..count {
        all.push(n + 1)?;
    }
    Ok(all)
}

// The chosen bands once more.
fn copied(alloc: Global, numbers: &[u32]) -> Result<Vec<u32>, AllocError>
    ensures numbers { IfOk result (λ v. v.items ≡ numbers.now) }
{
    let mut all = Vec::new(alloc);
    all.extend_from_slice(numbers)?;
    Ok(all)
}

/// The bands that are taken of the reference.
pub fn taken_bands(
    alloc: Global,
    options: &BuildOptions,
    reference: &Head,
) -> Result<Vec<u32>, AllocError>
    ensures numbers { IfOk result (λ v. v.items ≡ taken_bands options.now reference.now) }
    ensures rules { IfOk result (λ v. All IsBandNumber v.items) }
{
    options.rules();
    head_rules(reference);
    if options.bands.is_empty() {
        numbers_to(alloc, reference.bands.len() as u32)
    } else {
        copied(alloc, options.bands.as_slice())
    }
}

// An input before there is a reference.
#[tactic(auto, unfolding(crate::specs::Judging::judged_alone))]
fn judge_alone<'a>(options: &BuildOptions, head: &'a Head) -> Result<Tile<'a>, Reason>
    ensures verdict { result ≡ judged_alone options.now head.now }
{
    head_rules(head);
    match north_up_of(head) {
        None => Err(Reason::Geotransform),
        Some(place) => {
            if has_bands(head, options.bands.as_slice()) {
                Ok(Tile { head, place })
            } else {
                Err(Reason::Bands)
            }
        }
    }
}

// An input beside the reference, of which these bands are taken.
#[tactic(auto, unfolding(crate::specs::Judging::judged_beside))]
fn judge_beside<'a>(
    options: &BuildOptions,
    reference: &Head,
    taken: &[u32],
    head: &'a Head,
) -> Result<Tile<'a>, Reason>
    requires taken { taken.now ≡ taken_bands options.now reference.now }
    requires numbers { All IsBandNumber taken.now }
    ensures verdict { result ≡ judged_beside options.now reference.now head.now }
{
    head_rules(head);
    match north_up_of(head) {
        None => Err(Reason::Geotransform),
        Some(place) => {
            if !same_text(&head.srs, &reference.srs) {
                Err(Reason::Srs)
            } else if !(has_bands(head, options.bands.as_slice())
                && same_count(options, reference, head))
            {
                Err(Reason::Bands)
            } else if !(options.separate || same_types(head, reference, taken)) {
                Err(Reason::BandType)
            } else {
                Ok(Tile { head, place })
            }
        }
    }
}

// The inputs that stay and those that are skipped.
#[derive(Drop)]
pub struct Judged<'a> {
    pub tiles: Items<Tile<'a>>,
    pub skipped: SkipList,
}

impl<'a> Model for Judged<'a> {
    ghost use Rattle.buildvrt.specs.Judging.{JudgedValue};

    ghost Value = { JudgedValue };

    ghost view = { λ j. record { tiles = j.tiles; skipped = j.skipped } };
}

impl<'a> Judged<'a> {
    fn new(alloc: Global) -> Self
        ensures none { result ≡ none_judged }
    {
        Judged {
            tiles: Items::new(alloc),
            skipped: Items::new(alloc),
        }
    }

    // Adds the verdict on an input.
    fn add(&mut self, number: u32, verdict: Result<Tile<'a>, Reason>) -> Result<(), AllocError>
        ensures added { OnOk result (self.new ≡ joined self.old (one_judged number verdict.entry)) }
    {
        match verdict {
            Ok(tile) => self.tiles.push(tile),
            Err(reason) => self.skipped.push(Skipped {
                input: number,
                reason,
            }),
        }
    }
}

// The inputs behind the reference, the first of which has the number `first`.
#[tactic(auto, using(crate::proofs::Verdicts::behind_next))]
fn judge_behind<'a>(
    options: &BuildOptions,
    reference: &Head,
    taken: &[u32],
    first: u32,
    heads: &[Input<'a>],
    judged: &mut Judged<'a>,
) -> Result<(), AllocError>
    requires taken { taken.now ≡ taken_bands options.now reference.now }
    requires numbers { All IsBandNumber taken.now }
    requires few { first + length heads.now ≤ most_datasets }
    ensures judged { OnOk result (judged.new ≡ joined judged.old (judged_behind options.now reference.now first
        heads.now)) }
{
    let mut number = first;
    for input in heads {
        let head = input.head;
        judged.add(number, judge_beside(options, reference, taken, head))?;
        number += 1;
    }
    Ok(())
}

// The same, where what is taken of the reference isn't known yet.
fn judge_beyond<'a>(
    alloc: Global,
    options: &BuildOptions,
    reference: &Head,
    first: u32,
    heads: &[Input<'a>],
    judged: &mut Judged<'a>,
) -> Result<(), AllocError>
    requires few { first + length heads.now ≤ most_datasets }
    ensures judged { OnOk result (judged.new ≡ joined judged.old (judged_behind options.now reference.now first
        heads.now)) }
{
    let taken = taken_bands(alloc, options, reference)?;
    judge_behind(options, reference, &taken, first, heads, judged)
}

// Adds the verdicts on all inputs.
#[tactic(auto, using(crate::proofs::Verdicts::from_found, crate::proofs::Verdicts::from_skipped))]
fn judge_all<'a>(
    alloc: Global,
    options: &BuildOptions,
    heads: &[Input<'a>],
    judged: &mut Judged<'a>,
) -> Result<(), AllocError>
    requires few { length heads.now ≤ most_datasets }
    ensures judged { OnOk result (judged.new ≡ joined judged.old (judged_of options.now heads.now)) }
{
    let mut number = 0;
    for input in heads {
        let head = input.head;
        match judge_alone(options, head) {
            Ok(tile) => {
                judged.add(number, Ok(tile))?;
                let rest = &heads[number as usize + 1..];
                return judge_beyond(alloc, options, head, number + 1, rest, judged);
            }
            Err(reason) => judged.add(number, Err(reason))?,
        }
        number += 1;
    }
    Ok(())
}

/// The inputs that stay and those that are skipped. The reference is the first that stays.
pub fn judge<'a>(
    alloc: Global,
    options: &BuildOptions,
    heads: &[Input<'a>],
) -> Result<Judged<'a>, AllocError>
    requires few { length heads.now ≤ most_datasets }
    ensures judged { IfOk result (λ j. j ≡ judged_of options.now heads.now) }
{
    let mut judged = Judged::new(alloc);
    match judge_all(alloc, options, heads, &mut judged) {
        Ok(()) => Ok(judged),
        Err(error) => {
            drop(judged);
            Err(error)
        }
    }
}

// The first skipped input is refused.
#[tactic(auto, using(crate::proofs::Skips::refused_first))]
fn refuse_first(heads: &[Input], skipped: &[Skipped]) -> Result<(), BuildFault>
    requires within { All (IsOneOf (length heads.now)) skipped.now }
    ensures told { Gives IsMemory (λ _. tt) result (first_refused heads.now skipped.now) }
{
    match skipped.first() {
        None => Ok(()),
        Some(first) => {
            let input = &heads[first.input as usize];
            let head = input.head;
            Err(BuildFault::Strict {
                name: head.name.try_clone()?,
                reason: first.reason,
            })
        }
    }
}

/// Refuses the first skipped input, where none may be skipped.
#[tactic(auto, using(crate::proofs::Skips::all_within))]
pub fn strictly(options: &BuildOptions, heads: &[Input], judged: &Judged) -> Result<(), BuildFault>
    requires judged { judged.now ≡ judged_of options.now heads.now }
    ensures told { Gives IsMemory (λ _. tt) result (strictly options.now heads.now judged.now.skipped) }
{
    if options.strict {
        refuse_first(heads, judged.skipped.as_slice())
    } else {
        Ok(())
    }
}
