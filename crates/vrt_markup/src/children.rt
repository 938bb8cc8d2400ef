// Elements that hold elements alone: what their children make of them, one after the other.
ghost use Rattle.std.specs.Prelude.{◌≡◌, ℕ, ◌<◌, ◌≤◌, ◌-◌, length, IfOk, Result, Ok, true};
ghost use Rattle.vrt_markup.specs.Items as items;
ghost use Rattle.vrt_markup.specs.Items.{is_name, item_at};
ghost use Rattle.vrt_markup.specs.Forest.{Forest, deepest, nodes, inner, read_as};
ghost use Rattle.vrt_markup.specs.Views.{tag_view, Finds, Shortens};
ghost use Rattle.vrt_markup.specs.Kept.{Gives, seen, kept_of};
ghost use Rattle.vrt_markup.specs.Fronts.{stepped};
ghost use Rattle.vrt_markup.specs.declared.fault.VrtFault.{VrtFault};

use crate::ends::{own_end, own_start};
use crate::fault::VrtFault;
use crate::items::{Item, item_at};
use crate::past::{DEEPEST, past_element};
use crate::tag::Tag;
use crate::text::is_all_white;
use crate::tokens::is_equal;
use std::alloc::Global;

/// Where the elements in an element stand: in a document of so many bytes, and how deep.
#[derive(Clone, Copy)]
pub struct Level {
    pub total: usize,
    pub depth: usize,
}

/// What is read of an element so far, which each element in it changes or is a fault of.
pub trait Parts {
    /// What definitions see of it.
    ghost Value: { Type 0 };

    ghost value: { Self → Value };

    /// What an element in it makes of it, by its place, its tag and what stands in it.
    ghost step: { Self → Value → ℕ → items.Tag → Forest → Result Value VrtFault };

    /// The name of an element that may well be the next one in it, if its name begins with this byte.
    fn usual(&self, first: u8) -> &'static [u8]
        ensures named { is_name result.now ≡ true };

    /// Takes the element that begins with this tag, and lends what stands behind it. After its fault the parts are
    /// unknown.
    fn child<'a>(
        &mut self,
        alloc: Global,
        level: Level,
        place: u64,
        tag: Tag,
        bytes: &'a [u8],
    ) -> Result<(Result<(), VrtFault>, &'a [u8]), VrtFault>
        requires within { length bytes.now ≤ level.total }
        requires depth { level.depth < deepest }
        ensures child { Gives (λ x. (kept_of (value self.new) x.0, x.1.now)) result
            (read_as (step self.old (value self.old) place (tag_view tag.entry))
            (inner level.total level.depth (tag_view tag.entry) bytes.now)) }
        ensures shorter { IfOk result (λ x. length x.1.now ≤ length bytes.now) }
        ensures same { step self.new ≡ step self.old };
}

/// The first fault among the elements in an element, if there is one, and whether the text directly in it is all white.
#[derive(Clone, Copy)]
pub struct Seen {
    pub kept: Result<(), VrtFault>,
    pub white: bool,
}

// A child of an element, which is read past once there is a fault.
fn next_child<'a, P: Parts>(
    alloc: Global,
    level: Level,
    kept: Result<(), VrtFault>,
    place: u64,
    parts: &mut P,
    tag: Tag,
    bytes: &'a [u8],
) -> Result<(Result<(), VrtFault>, &'a [u8]), VrtFault>
    requires within { length bytes.now ≤ level.total }
    requires depth { level.depth < deepest }
    ensures child { Gives (λ x. (kept_of (P.value parts.new) x.0, x.1.now)) result
        (read_as (stepped (P.step parts.old) (kept_of (P.value parts.old) kept) place (tag_view tag.entry))
        (inner level.total level.depth (tag_view tag.entry) bytes.now)) }
    ensures shorter { IfOk result (λ x. length x.1.now ≤ length bytes.now) }
    ensures same { P.step parts.new ≡ P.step parts.old }
{
    match kept {
        Ok(()) => parts.child(alloc, level, place, tag, bytes),
        Err(fault) => match past_element(alloc, level.total, level.depth, tag, bytes) {
            Ok(rest) => Ok((Err(fault), rest)),
            Err(error) => Err(error),
        },
    }
}

// The byte behind the first one, or 0 where there is none.
fn second(text: &[u8]) -> u8 {
    match text {
        [_, c, ..] => *c,
        _ => 0,
    }
}

// The item in front of a text where the start tag that may well stand there doesn't.
#[inline(never)]
fn other_item(alloc: Global, text: &[u8]) -> Item
    ensures item { Finds result (item_at text.now) }
    ensures shorter { Shortens result text.now }
{
    item_at(alloc, text)
}

// The item in front of a text, where the start tag of this name may well stand.
#[inline(always)]
#[tactic(auto, using(crate::proofs::StartTags::start_item))]
fn likely_item<'a>(alloc: Global, text: &'a [u8], name: &'a [u8]) -> Item<'a>
    requires named { is_name name.now ≡ true }
    ensures item { Finds result (item_at text.now) }
    ensures shorter { Shortens result text.now }
{
    match own_start(text, name) {
        Some(rest) => {
            let attributes: &'a [u8] = &[];
            let tag = Tag {
                name,
                attributes,
                empty: false,
            };
            Item::Open(tag, rest)
        }
        None => {
            // It has a place of its own, so that the item of the likely tag stays in registers.
            let item = other_item(alloc, text);
            item
        }
    }
}

// What the elements in an element of this name make of its parts, behind its start tag.
#[tactic(auto, using(crate::proofs::Reading::seen_close, crate::proofs::Reading::seen_end))]
fn child_nodes<'a, P: Parts>(
    alloc: Global,
    level: Level,
    name: &[u8],
    parts: &mut P,
    bytes: &'a [u8],
) -> Result<(Seen, &'a [u8]), VrtFault>
    requires within { length bytes.now ≤ level.total }
    requires depth { level.depth ≤ deepest }
    requires named { is_name name.now ≡ true }
    ensures seen { Gives (λ x. ((kept_of (P.value parts.new) x.0.kept, x.0.white), x.1.now)) result
        (read_as (seen (P.step parts.old) (Ok (P.value parts.old)) true)
        (nodes level.total level.depth name.now bytes.now)) }
    ensures shorter { IfOk result (λ x. length x.1.now < length bytes.now) }
{
    let mut rest = bytes;
    let mut seen = Seen {
        kept: Ok(()),
        white: true,
    };
    'items: loop {
        if let Some(behind) = own_end(rest, name) {
            return Ok((seen, behind));
        }
        let place = (level.total - rest.len()) as u64;
        let usual = parts.usual(second(rest));
        match likely_item(alloc, rest, usual) {
            Item::NoMemory => return Err(VrtFault::Memory),
            Item::Comment(more) => rest = more,
            Item::Run(raw, more) => {
                seen.white = seen.white & is_all_white(raw);
                rest = more;
            }
            Item::Close(other, more) if is_equal(other, name) => return Ok((seen, more)),
            Item::Bad => return Err(VrtFault::BadText(place)),
            Item::Close(_, _) => return Err(VrtFault::BadText(place)),
            Item::Open(_, _) if level.depth >= DEEPEST => return Err(VrtFault::Limit),
            Item::Open(tag, more) => {
                match next_child(alloc, level, seen.kept, place, parts, tag, more) {
                    Ok((kept, behind)) => {
                        seen.kept = kept;
                        rest = behind;
                    }
                    Err(error) => return Err(error),
                }
            }
        }
    }
}

/// What the elements in an element make of its parts, in their order: the first fault counts, and the later ones are
/// read past.
pub fn children_of<'a, P: Parts>(
    alloc: Global,
    level: Level,
    tag: Tag,
    parts: &mut P,
    bytes: &'a [u8],
) -> Result<(Seen, &'a [u8]), VrtFault>
    requires within { length bytes.now ≤ level.total }
    requires depth { level.depth < deepest }
    ensures seen { Gives (λ x. ((kept_of (P.value parts.new) x.0.kept, x.0.white), x.1.now)) result
        (read_as (seen (P.step parts.old) (Ok (P.value parts.old)) true)
        (inner level.total level.depth (tag_view tag.entry) bytes.now)) }
    ensures shorter { IfOk result (λ x. length x.1.now ≤ length bytes.now) }
{
    if tag.empty {
        return Ok((
            Seen {
                kept: Ok(()),
                white: true,
            },
            bytes,
        ));
    }
    let inside = Level {
        total: level.total,
        depth: level.depth + 1,
    };
    child_nodes(alloc, inside, tag.name, parts, bytes)
}
