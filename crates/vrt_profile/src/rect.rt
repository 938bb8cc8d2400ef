// Rectangles: SrcRect and DstRect.
ghost use Rattle.std.specs.Prelude.{◌≡◌, ◌<◌, ◌≤◌, ◌<ℤ◌, pos, length, codes, IfOk, Option, Some, Bool, true};
ghost use Rattle.std.specs.Option.{option_map};
ghost use Rattle.vrt_markup.specs.Items.{attribute, pairs};
ghost use Rattle.vrt_profile.specs.Values.{IsOffset};
ghost use Rattle.vrt_markup.specs.Forest.{deepest, inner, read_as};
ghost use Rattle.vrt_profile.specs.Means.{once, rect_of};
ghost use Rattle.vrt_profile.specs.Seen.{rect_end, rect_by};
ghost use Rattle.vrt_markup.specs.Views.{tag_view};
ghost use Rattle.vrt_markup.specs.Kept.{Gives, kept_of, no_child};

use crate::numbers::{offset_in, size_in};
use crate::puts::put_once;
use crate::rectangle::MicroRect;
use std::alloc::Global;
use vrt_markup::{Level, Parts, Seen, Tag, VrtFault, attribute_front, children_of, past_element};

// An element that has attributes alone: each element in it is a fault.
#[derive(Drop)]
struct Bare;

impl Parts for Bare {
    ghost Value = { Bool };

    ghost value = { λ _. true };

    ghost step = { λ _. no_child };

    // No element may stand in it.
    fn usual(&self, _first: u8) -> &'static [u8] {
        b"none"
    }

    fn child<'a>(
        &mut self,
        alloc: Global,
        level: Level,
        place: u64,
        tag: Tag,
        bytes: &'a [u8],
    ) -> Result<(Result<(), VrtFault>, &'a [u8]), VrtFault> {
        match past_element(alloc, level.total, level.depth, tag, bytes) {
            Ok(rest) => Ok((Err(VrtFault::UnknownElement(place)), rest)),
            Err(error) => Err(error),
        }
    }
}

// The texts of a rectangle's numbers.
#[derive(Clone, Copy)]
struct RectTexts<'a> {
    x: Option<&'a [u8]>,
    y: Option<&'a [u8]>,
    w: Option<&'a [u8]>,
    h: Option<&'a [u8]>,
}

// The texts of the numbers in some attributes, read once where they stand in this order.
fn rect_texts(attributes: &[u8]) -> RectTexts
    ensures x { option_map (λ v. v.now) result.x ≡ attribute (codes "xOff") (pairs attributes.now).0 }
    ensures y { option_map (λ v. v.now) result.y ≡ attribute (codes "yOff") (pairs attributes.now).0 }
    ensures w { option_map (λ v. v.now) result.w ≡ attribute (codes "xSize") (pairs attributes.now).0 }
    ensures h { option_map (λ v. v.now) result.h ≡ attribute (codes "ySize") (pairs attributes.now).0 }
{
    let (x, rest) = attribute_front(attributes, b"xOff");
    let (y, rest) = attribute_front(rest, b"yOff");
    let (w, rest) = attribute_front(rest, b"xSize");
    let (h, _) = attribute_front(rest, b"ySize");
    RectTexts { x, y, w, h }
}

fn rect_end(seen: Seen, rect: MicroRect) -> Result<MicroRect, VrtFault>
    ensures rect { result ≡ rect_end seen.white (kept_of true seen.kept) rect }
{
    if !seen.white {
        return Err(VrtFault::Unsupported);
    }
    match seen.kept {
        Ok(()) => Ok(rect),
        Err(fault) => Err(fault),
    }
}

// The rectangle of its numbers, or their first fault, then what else stands in its element.
#[tactic(auto, unfolding(crate::specs::Seen::rect_by))]
fn rect_by(
    x: Result<i64, VrtFault>,
    y: Result<i64, VrtFault>,
    w: Result<i64, VrtFault>,
    h: Result<i64, VrtFault>,
    seen: Seen,
) -> Result<MicroRect, VrtFault>
    requires x { IfOk x IsOffset }
    requires y { IfOk y IsOffset }
    requires w { IfOk w (λ v. (pos 0 <ℤ v) × IsOffset v) }
    requires h { IfOk h (λ v. (pos 0 <ℤ v) × IsOffset v) }
    ensures rect { result ≡ rect_by x y w h seen.white (kept_of true seen.kept) }
{
    let x = x?;
    let y = y?;
    let w = w?;
    let h = h?;
    rect_end(seen, MicroRect { x, y, w, h })
}

// What a SrcRect or a DstRect means.
#[inline(never)]
fn rect_element<'a>(
    alloc: Global,
    level: Level,
    tag: Tag,
    bytes: &'a [u8],
) -> Result<(Result<MicroRect, VrtFault>, &'a [u8]), VrtFault>
    requires within { length bytes.now ≤ level.total }
    requires depth { level.depth < deepest }
    ensures rect { Gives (λ x. (x.0, x.1.now)) result (read_as (rect_of (tag_view tag.entry))
        (inner level.total level.depth (tag_view tag.entry) bytes.now)) }
    ensures shorter { IfOk result (λ x. length x.1.now ≤ length bytes.now) }
{
    let texts = rect_texts(tag.attributes);
    let x = offset_in(texts.x);
    let y = offset_in(texts.y);
    let w = size_in(texts.w);
    let h = size_in(texts.h);
    match children_of(alloc, level, tag, &mut Bare, bytes) {
        Ok((seen, rest)) => Ok((rect_by(x, y, w, h, seen), rest)),
        Err(error) => Err(error),
    }
}

/// Puts a SrcRect or a DstRect in its place.
#[inline(always)]
pub fn rect_child<'a>(
    place: &mut Option<MicroRect>,
    alloc: Global,
    level: Level,
    tag: Tag,
    bytes: &'a [u8],
) -> Result<(Result<(), VrtFault>, &'a [u8]), VrtFault>
    requires within { length bytes.now ≤ level.total }
    requires depth { level.depth < deepest }
    ensures child { Gives (λ x. (kept_of place.new x.0, x.1.now)) result
        (read_as (λ f. once place.old (rect_of (tag_view tag.entry) f) Some)
        (inner level.total level.depth (tag_view tag.entry) bytes.now)) }
    ensures shorter { IfOk result (λ x. length x.1.now ≤ length bytes.now) }
{
    match rect_element(alloc, level, tag, bytes) {
        Ok((rect, rest)) => Ok((put_once(place, rect), rest)),
        Err(error) => Err(error),
    }
}
