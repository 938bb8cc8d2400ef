// The text directly in an element, and elements that hold text alone.
ghost use Rattle.std.specs.Prelude.{◌≡◌, ℕ, true, IfSome, ◌<◌, ◌≤◌, ◌-◌, ◌++◌, [], length, IfOk, OnOk, Result, Ok};
ghost use Rattle.std.specs.Prelude.{Option, None, Some};
ghost use Rattle.std.specs.List.{prefix_len};
ghost use Rattle.lists_and_answers.specs.Texts.{is_white};
ghost use Rattle.vrt_markup.specs.Items.{is_name};
ghost use Rattle.vrt_markup.specs.Keys.{is_plain, is_literal};
ghost use Rattle.vrt_markup.specs.Forest.{deepest, nodes, inner, is_all_white, plain_at, decoded, read_as};
ghost use Rattle.vrt_markup.specs.Views.{tag_view, text_view, plain_text};
ghost use Rattle.vrt_markup.specs.Kept.{Gives, worded, first_child};

use crate::ends::own_end;
use crate::fault::VrtFault;
use crate::items::{Item, item_at};
use crate::past::{DEEPEST, past_element};
use crate::tag::Tag;
use crate::tokens::{entity_at, is_equal};
use lists_and_answers::is_white;
use memchr::memchr2;
use std::alloc::{AllocError, Global};

/// Whether it is white space alone.
pub fn is_all_white(raw: &[u8]) -> bool
    ensures white { result ≡ is_all_white raw.now }
{
    raw.iter().all(|c| is_white(*c))
}

// The byte that stands here, and how many bytes behind it belong to it.
fn plain_at(c: u8, rest: &[u8]) -> (u8, u8)
    ensures plain { result ≡ plain_at c rest.now }
    ensures within { result.1 ≤ length rest.now }
{
    if c == b'&' {
        match entity_at(rest) {
            Some(entity) => entity,
            None => (c, 0),
        }
    } else {
        (c, 0)
    }
}

// How many bytes stand in front of the first `&`.
fn literal_len(text: &[u8]) -> usize
    ensures count { result ≡ prefix_len is_literal text.now }
    ensures bound { result ≤ length text.now }
{
    text.iter().take_while(|c| **c != b'&').count()
}

// Adds what stands in front of the first `&`, and gives what stands from there on.
fn push_literal<'a>(out: &mut Vec<u8>, text: &'a [u8]) -> Result<&'a [u8], AllocError>
    ensures ok { IfOk result (λ r. out.new.items ++ decoded r.now ≡ out.old.items ++ decoded text.now) }
    ensures shorter { IfOk result (λ r. length r.now ≤ length text.now) }
{
    let count = literal_len(text);
    if count == 0 {
        return Ok(text);
    }
    let (whole, rest) = text.split_at(count);
    out.extend_from_slice(whole)?;
    Ok(rest)
}

// Adds the text, entities read.
#[tactic(auto, using(crate::proofs::Entities::skips))]
fn push_decoded(out: &mut Vec<u8>, raw: &[u8]) -> Result<(), AllocError>
    ensures ok { OnOk result (out.new.items ≡ out.old.items ++ decoded raw.now) }
{
    let mut rest = raw;
    while let [c, more @ ..] = rest {
        let (byte, count) = plain_at(*c, more);
        out.push(byte)?;
        let (_, behind) = more.split_at(count as usize);
        rest = push_literal(out, behind)?;
    }
    Ok(())
}

/// A text with its entities read: as it stands in the document, or on its own where it stands there in another form.
#[derive(Drop)]
pub enum Plain<'a> {
    Lent(&'a [u8]),
    Own(Vec<u8>),
}

impl<'a> Plain<'a> {
    /// Its bytes.
    pub fn as_slice(&self) -> &[u8]
        ensures bytes { result.now ≡ plain_text self.now }
    {
        match self {
            Plain::Lent(text) => text,
            Plain::Own(text) => text.as_slice(),
        }
    }
}

/// The text directly in an element, and the place of the first element in it.
#[derive(Drop)]
pub struct Words<'a> {
    pub text: Plain<'a>,
    pub child: Option<u64>,
}

// The place of the first element, where one stands at this place too.
fn first_child(child: Option<u64>, place: u64) -> Option<u64>
    ensures first { result ≡ first_child child (Some place) }
{
    match child {
        None => Some(place),
        Some(first) => Some(first),
    }
}

// The text in an element of this name, behind its start tag.
#[tactic(auto, using(crate::proofs::Reading::read_bad, crate::proofs::Reading::read_comment, crate::proofs::Reading::worded_run, crate::proofs::Reading::worded_close, crate::proofs::Reading::read_other, crate::proofs::Reading::read_deep, crate::proofs::Reading::worded_open))]
fn text_nodes<'a>(
    alloc: Global,
    total: usize,
    depth: usize,
    name: &[u8],
    bytes: &'a [u8],
) -> Result<(Words<'a>, &'a [u8]), VrtFault>
    requires within { length bytes.now ≤ total }
    requires depth { depth ≤ deepest }
    ensures text { Gives (λ x. (text_view x.0, x.1.now)) result (read_as (worded [] None)
        (nodes total depth name.now bytes.now)) }
    ensures shorter { IfOk result (λ x. length x.1.now < length bytes.now) }
{
    let mut rest = bytes;
    let mut text = Vec::new(alloc);
    let mut child = None;
    loop {
        let place = (total - rest.len()) as u64;
        match item_at(alloc, rest) {
            Item::NoMemory => return Err(VrtFault::Memory),
            Item::Comment(more) => rest = more,
            Item::Run(raw, more) => {
                push_decoded(&mut text, raw)?;
                rest = more;
            }
            Item::Close(other, more) if is_equal(other, name) => return Ok((
                Words {
                    text: Plain::Own(text),
                    child,
                },
                more,
            )),
            Item::Bad | Item::Close(_, _) => return Err(VrtFault::BadText(place)),
            Item::Open(_, _) if depth >= DEEPEST => return Err(VrtFault::Limit),
            Item::Open(tag, more) => {
                match past_element(alloc, total, depth, tag, more) {
                    Ok(behind) => {
                        child = first_child(child, place);
                        rest = behind;
                    }
                    Err(error) => return Err(error),
                }
            }
        }
    }
}

// Whether a byte begins neither a tag nor an entity.
fn is_plain(c: u8) -> bool
    ensures { result ≡ is_plain c }
{
    c != b'<' && c != b'&'
}

// How many bytes stand in front of the first tag or entity, many asked at once.
#[inline(never)]
#[tactic(auto, using(crate::proofs::Fronts::first_place, crate::proofs::Fronts::place_within))]
fn plain_far(bytes: &[u8]) -> usize
    ensures count { result ≡ prefix_len is_plain bytes.now }
    ensures bound { result ≤ length bytes.now }
{
    memchr2(b'<', b'&', bytes).unwrap_or(bytes.len())
}

// How many bytes stand in front of the first tag or entity. Most texts are short, so a few are asked one at a time.
fn plain_front(bytes: &[u8]) -> usize
    ensures count { result ≡ prefix_len is_plain bytes.now }
    ensures bound { result ≤ length bytes.now }
{
    let mut rest = bytes;
    let mut count = 0;
    while let [c, more @ ..] = rest {
        if count >= 16 {
            return count + plain_far(rest);
        }
        if !is_plain(*c) {
            return count;
        }
        rest = more;
        count += 1;
    }
    count
}

// The text in an element of this name, behind its start tag, where it stands there in one piece as it is.
#[inline(always)]
#[tactic(auto, using(crate::proofs::Lent::lent))]
fn lent_text<'a>(name: &[u8], bytes: &'a [u8]) -> Option<(&'a [u8], &'a [u8])>
    requires named { is_name name.now ≡ true }
    ensures text { IfSome result (λ x. (total depth : ℕ) → Ok ((x.0.now, None), x.1.now) ≡ read_as (worded [] None)
        (nodes total depth name.now bytes.now)) }
    ensures shorter { IfSome result (λ x. length x.1.now < length bytes.now) }
{
    let (text, rest) = bytes.split_at(plain_front(bytes));
    let behind = own_end(rest, name)?;
    Some((text, behind))
}

/// The text in an element that begins with a tag, and the first element in it.
#[inline(always)]
pub fn text_element<'a>(
    alloc: Global,
    total: usize,
    depth: usize,
    tag: Tag,
    bytes: &'a [u8],
) -> Result<(Words<'a>, &'a [u8]), VrtFault>
    requires within { length bytes.now ≤ total }
    requires depth { depth < deepest }
    ensures text { Gives (λ x. (text_view x.0, x.1.now)) result (read_as (worded [] None)
        (inner total depth (tag_view tag.entry) bytes.now)) }
    ensures shorter { IfOk result (λ x. length x.1.now ≤ length bytes.now) }
{
    if tag.empty {
        return Ok((
            Words {
                text: Plain::Lent(&[]),
                child: None,
            },
            bytes,
        ));
    }
    match lent_text(tag.name, bytes) {
        Some((text, behind)) => Ok((
            Words {
                text: Plain::Lent(text),
                child: None,
            },
            behind,
        )),
        None => {
            // It has a place of its own, so that a text that is lent stays in registers.
            let words = text_nodes(alloc, total, depth + 1, tag.name, bytes);
            words
        }
    }
}
