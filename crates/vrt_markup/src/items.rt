// The items of a document: comments, tags and runs of text.
ghost use Rattle.std.specs.Prelude.{◌≡◌, ◌<◌, ◌≤◌, length, map, true, false, IfSome, IfOk, Some, None};
ghost use Rattle.std.specs.Option.{option_map};
ghost use Rattle.vrt_markup.specs.Items.{is_name, has_first, name_at, pairs, is_distinct, tag_end, tag_front, tag_item};
ghost use Rattle.vrt_markup.specs.Items.{tag_at, close_at, run_at, item_at};
ghost use Rattle.vrt_markup.specs.Fronts.{opens_name};
ghost use Rattle.vrt_markup.specs.Keys.{number_of};
ghost use Rattle.vrt_markup.specs.Views.{tag_view, Finds, Shortens};

use crate::attributes::{behind_rising, is_distinct, numbers_of};
use crate::tag::Tag;
use crate::tokens::{
    after_comment, byte_at, comment_front, has_first, name_at, name_front, run_len, trim_front,
    two_at,
};
use std::alloc::{AllocError, Global};

/// Whether a tag ends as an empty one, and what stands behind it.
fn tag_end(text: &[u8]) -> Option<(bool, &[u8])>
    ensures end { option_map (λ x. (x.0, x.1.now)) result ≡ tag_end text.now }
    ensures shorter { IfSome result (λ x. length x.1.now < length text.now) }
{
    match text {
        [c, rest @ ..] if *c == b'>' => Some((false, rest)),
        [c, rest @ ..] if *c == b'/' => {
            let rest = byte_at(rest, b'>')?;
            Some((true, rest))
        }
        _ => None,
    }
}

/// A tag of this name, what stands behind it, and the numbers of its attributes' names; none also where
/// one of the first attributes stands twice.
#[tactic(auto, unfolding(crate::specs::Items::tag_front), using(crate::proofs::Names::tag_endless, crate::proofs::Names::tag_twice))]
fn tag_front<'a>(
    alloc: Global,
    text: &'a [u8],
    name: &'a [u8],
    attributes: &'a [u8],
) -> Result<Option<(Tag<'a>, &'a [u8], Vec<u64>)>, AllocError>
    requires front { Some (name.now, attributes.now) ≡ name_at text.now }
    requires named { is_name name.now ≡ true }
    requires behind { length attributes.now ≤ length text.now }
    ensures tag { IfOk result (λ o. IfSome o (λ x. Some (tag_view x.0, x.1.now) ≡ tag_front text.now)) }
    ensures none { IfOk result (λ o. o ≡ None → tag_at text.now ≡ None) }
    ensures numbers { IfOk result (λ o. IfSome o (λ x. x.2.items ≡ map number_of (pairs x.0.attributes.now).0)) }
    ensures shorter { IfOk result (λ o. IfSome o (λ x. length x.1.now < length text.now)) }
{
    let Some((numbers, behind)) = numbers_of(alloc, attributes)? else {
        return Ok(None);
    };
    let Some((empty, rest)) = tag_end(trim_front(behind)) else {
        return Ok(None);
    };
    let tag = Tag {
        name,
        attributes,
        empty,
    };
    Ok(Some((tag, rest, numbers)))
}

// The item of a tag of this name, none of whose attributes stands twice, by what stands behind them.
#[tactic(auto, using(crate::proofs::Rising::ended_tag, crate::proofs::Rising::ended_none))]
fn ended_item<'a>(
    text: &'a [u8],
    name: &'a [u8],
    attributes: &'a [u8],
    behind: &'a [u8],
) -> Item<'a>
    requires front { Some (name.now, attributes.now) ≡ name_at text.now }
    requires named { is_name name.now ≡ true }
    requires rest { behind.now ≡ (pairs attributes.now).1 }
    requires distinct { is_distinct (pairs attributes.now).0 ≡ true }
    requires behind { length behind.now ≤ length text.now }
    ensures item { Finds result (tag_item text.now) }
    ensures shorter { Shortens result text.now }
{
    match tag_end(trim_front(behind)) {
        Some((empty, rest)) => {
            let tag = Tag {
                name,
                attributes,
                empty,
            };
            Item::Open(tag, rest)
        }
        None => Item::Bad,
    }
}

// The item of a tag of this name that may have attributes. In most tags the numbers of the names rise, and
// then none has to be kept.
#[inline(never)]
fn full_item<'a>(alloc: Global, text: &'a [u8], name: &'a [u8], attributes: &'a [u8]) -> Item<'a>
    requires front { Some (name.now, attributes.now) ≡ name_at text.now }
    requires named { is_name name.now ≡ true }
    requires behind { length attributes.now ≤ length text.now }
    ensures item { Finds result (tag_item text.now) }
    ensures shorter { Shortens result text.now }
{
    match behind_rising(attributes) {
        Some(behind) => ended_item(text, name, attributes, behind),
        None => unordered_item(alloc, text, name, attributes),
    }
}

// The item of a tag of this name whose attributes may stand in any order.
#[tactic(auto, unfolding(crate::specs::Items::tag_at))]
fn unordered_item<'a>(
    alloc: Global,
    text: &'a [u8],
    name: &'a [u8],
    attributes: &'a [u8],
) -> Item<'a>
    requires front { Some (name.now, attributes.now) ≡ name_at text.now }
    requires named { is_name name.now ≡ true }
    requires behind { length attributes.now ≤ length text.now }
    ensures item { Finds result (tag_item text.now) }
    ensures shorter { Shortens result text.now }
{
    match tag_front(alloc, text, name, attributes) {
        Err(_) => Item::NoMemory,
        Ok(None) => Item::Bad,
        Ok(Some((tag, rest, numbers))) => match is_distinct(alloc, tag.attributes, numbers) {
            Ok(true) => Item::Open(tag, rest),
            Ok(false) => Item::Bad,
            Err(_) => Item::NoMemory,
        },
    }
}

#[tactic(auto, unfolding(crate::specs::Items::close_at))]
fn close_at(text: &[u8]) -> Option<(&[u8], &[u8])>
    ensures close { option_map (λ x. (x.0.now, x.1.now)) result ≡ close_at text.now }
    ensures shorter { IfSome result (λ x. length x.1.now < length text.now) }
{
    let (name, rest) = name_at(text)?;
    let rest = byte_at(trim_front(rest), b'>')?;
    Some((name, rest))
}

/// The item in front of a text, with what stands behind it.
#[derive(Clone, Copy)]
pub enum Item<'a> {
    NoMemory,
    Bad,
    Comment(&'a [u8]),
    Run(&'a [u8], &'a [u8]),
    Open(Tag<'a>, &'a [u8]),
    Close(&'a [u8], &'a [u8]),
}

fn run_at(text: &[u8]) -> Item
    ensures item { Finds result (run_at text.now) }
    ensures shorter { Shortens result text.now }
{
    let count = run_len(text);
    if count == 0 {
        return Item::Bad;
    }
    let (run, rest) = text.split_at(count);
    Item::Run(run, rest)
}

// The item in front of a text that may begin with anything but a `<` with a name behind it. Behind another `<` there is
// no run.
#[tactic(auto, unfolding(crate::specs::Items::item_at), using(crate::proofs::StartTags::run_item, crate::proofs::StartTags::nameless_front))]
#[inline(never)]
fn any_item(text: &[u8]) -> Item
    requires nameless { opens_name text.now ≡ false }
    ensures item { Finds result (item_at text.now) }
    ensures shorter { Shortens result text.now }
{
    if let Some(rest) = comment_front(text) {
        return match after_comment(rest) {
            Some(rest) => Item::Comment(rest),
            None => Item::Bad,
        };
    }
    if let Some(rest) = two_at(text, b'<', b'/') {
        return match close_at(rest) {
            Some((name, rest)) => Item::Close(name, rest),
            None => Item::Bad,
        };
    }
    run_at(text)
}

// What stands behind the `<` in front, where a name begins there.
#[tactic(auto, using(crate::proofs::StartTags::first_item, crate::proofs::StartTags::no_opening, crate::proofs::StartTags::no_name))]
fn named_front(text: &[u8]) -> Option<&[u8]>
    ensures first { IfSome result (λ r. has_first r.now ≡ true) }
    ensures item { IfSome result (λ r. tag_item r.now ≡ item_at text.now) }
    ensures none { result ≡ None → opens_name text.now ≡ false }
    ensures shorter { IfSome result (λ r. length r.now < length text.now) }
{
    let rest = byte_at(text, b'<')?;
    if !has_first(rest) {
        return None;
    }
    Some(rest)
}

/// The item in front of a text. A tag that ends behind its name has no attributes. What calls find has a place of its
/// own, so that the item of such a tag stays in registers.
#[inline(always)]
pub fn item_at(alloc: Global, text: &[u8]) -> Item
    ensures item { Finds result (item_at text.now) }
    ensures shorter { Shortens result text.now }
{
    let Some(front) = named_front(text) else {
        let item = any_item(text);
        return item;
    };
    let (name, attributes) = name_front(front);
    match tag_end(attributes) {
        Some((empty, rest)) => {
            let tag = Tag {
                name,
                attributes,
                empty,
            };
            Item::Open(tag, rest)
        }
        None => {
            let item = full_item(alloc, front, name, attributes);
            item
        }
    }
}
