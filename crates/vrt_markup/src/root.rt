// The root of a document, and what stands outside it.
ghost use Rattle.std.specs.Prelude.{◌≡◌, ◌<◌, ◌≤◌, ◌-◌, length, IfOk, IfSome, Result, Ok, Err, Option};
ghost use Rattle.std.specs.Option.{option_map};
ghost use Rattle.vrt_markup.specs.Views.{result_view, root_view};
ghost use Rattle.vrt_markup.specs.Kept.{Gives};
ghost use Rattle.vrt_markup.specs.Tree.{utf8_of, space, without_mark, after_declaration, declared_at, root_at, end_by};
ghost use Rattle.vrt_markup.specs.Tree.{end_at};
ghost use Rattle.vrt_markup.specs.Fronts.{root_behind};

use crate::fault::VrtFault;
use crate::items::{Item, item_at};
use crate::tag::Tag;
use crate::text::is_all_white;
use crate::tokens::strip;
use std::alloc::Global;
use std::str;

// What is left behind comments and white space.
#[tactic(auto, using(crate::proofs::Outside::space_bad, crate::proofs::Outside::space_open, crate::proofs::Outside::space_close, crate::proofs::Outside::space_comment, crate::proofs::Outside::space_run, crate::proofs::Outside::space_text))]
fn space(alloc: Global, total: usize, bytes: &[u8]) -> Result<&[u8], VrtFault>
    requires within { length bytes.now ≤ total }
    ensures rest { Gives (λ r. r.now) result (space total bytes.now) }
    ensures shorter { IfOk result (λ r. length r.now ≤ length bytes.now) }
{
    let mut rest = bytes;
    'items: loop {
        match item_at(alloc, rest) {
            Item::NoMemory => return Err(VrtFault::Memory),
            Item::Comment(more) => rest = more,
            Item::Run(raw, more) => {
                if !is_all_white(raw) {
                    return Err(VrtFault::BadText((total - rest.len()) as u64));
                }
                rest = more;
            }
            Item::Bad => return Ok(rest),
            Item::Open(_, _) => return Ok(rest),
            Item::Close(_, _) => return Ok(rest),
        }
    }
}

/// The bytes, where all are UTF-8; else `BadText` with the place of the first character that fails.
#[tactic(auto, using(crate::proofs::Utf8::utf8_ok, crate::proofs::Utf8::utf8_err))]
pub fn utf8_of(bytes: &[u8]) -> Result<&[u8], VrtFault>
    ensures text { result_view (λ r. r.now) result ≡ utf8_of bytes.now }
{
    match str::from_utf8(bytes) {
        Ok(_) => Ok(bytes),
        Err(error) => Err(VrtFault::BadText(error.valid_up_to() as u64)),
    }
}

fn without_mark(bytes: &[u8]) -> &[u8]
    ensures rest { result.now ≡ without_mark bytes.now }
    ensures shorter { length result.now ≤ length bytes.now }
{
    match strip(bytes, &[239, 187, 191]) {
        Some(rest) => rest,
        None => bytes,
    }
}

fn after_declaration(text: &[u8]) -> Option<&[u8]>
    ensures rest { option_map (λ r. r.now) result ≡ after_declaration text.now }
    ensures shorter { IfSome result (λ r. length r.now ≤ length text.now) }
{
    let mut rest = text;
    while let [_, more @ ..] = rest {
        if let Some(behind) = strip(rest, b"?>") {
            return Some(behind);
        }
        rest = more;
    }
    None
}

fn declared_at(total: usize, bytes: &[u8]) -> Result<&[u8], VrtFault>
    requires within { length bytes.now ≤ total }
    ensures rest { result_view (λ r. r.now) result ≡ declared_at total bytes.now }
    ensures shorter { IfOk result (λ r. length r.now ≤ length bytes.now) }
{
    match strip(bytes, b"<?xml") {
        None => Ok(bytes),
        Some(rest) => match after_declaration(rest) {
            None => Err(VrtFault::BadText((total - bytes.len()) as u64)),
            Some(rest) => Ok(rest),
        },
    }
}

/// The root's start tag, its place and what stands behind it.
#[derive(Clone, Copy)]
pub struct Root<'a> {
    pub place: u64,
    pub tag: Tag<'a>,
    pub rest: &'a [u8],
}

/// The root's start tag, behind comments and white space.
#[tactic(auto, using(crate::proofs::Outside::root_bad, crate::proofs::Outside::root_open, crate::proofs::Outside::root_close, crate::proofs::Outside::root_comment, crate::proofs::Outside::root_run, crate::proofs::Outside::root_text))]
fn root_behind(alloc: Global, total: usize, bytes: &[u8]) -> Result<Root, VrtFault>
    requires within { length bytes.now ≤ total }
    ensures root { Gives root_view result (root_behind total bytes.now) }
    ensures shorter { IfOk result (λ r. length r.rest.now ≤ length bytes.now) }
{
    let mut rest = bytes;
    'items: loop {
        let place = (total - rest.len()) as u64;
        match item_at(alloc, rest) {
            Item::NoMemory => return Err(VrtFault::Memory),
            Item::Comment(more) => rest = more,
            Item::Run(raw, more) => {
                if !is_all_white(raw) {
                    return Err(VrtFault::BadText(place));
                }
                rest = more;
            }
            Item::Open(tag, more) => return Ok(Root {
                place,
                tag,
                rest: more,
            }),
            Item::Bad => return Err(VrtFault::BadText(place)),
            Item::Close(_, _) => return Err(VrtFault::BadText(place)),
        }
    }
}

/// The root's start tag, behind a byte order mark, a declaration, comments and white space.
#[tactic(auto, unfolding(crate::specs::Tree::root_at), using(crate::proofs::Outside::fails_bind))]
pub fn root_at(alloc: Global, total: usize, bytes: &[u8]) -> Result<Root, VrtFault>
    requires within { length bytes.now ≤ total }
    ensures root { Gives root_view result (root_at total bytes.now) }
    ensures shorter { IfOk result (λ r. length r.rest.now ≤ length bytes.now) }
{
    match declared_at(total, without_mark(bytes)) {
        Err(fault) => Err(fault),
        Ok(front) => root_behind(alloc, total, front),
    }
}

fn end_by(total: usize, bytes: &[u8]) -> Result<&[u8], VrtFault>
    requires within { length bytes.now ≤ total }
    ensures end { result_view (λ r. r.now) result ≡ end_by total bytes.now }
{
    match bytes {
        [] => Ok(&[]),
        [_, ..] => Err(VrtFault::BadText((total - bytes.len()) as u64)),
    }
}

/// What is left behind the root: nothing, since only comments and white space may follow it.
#[tactic(auto, unfolding(crate::specs::Tree::end_at), using(crate::proofs::Outside::fails_bind))]
pub fn end_at(alloc: Global, total: usize, bytes: &[u8]) -> Result<&[u8], VrtFault>
    requires within { length bytes.now ≤ total }
    ensures end { Gives (λ r. r.now) result (end_at total bytes.now) }
{
    match space(alloc, total, bytes) {
        Err(error) => Err(error),
        Ok(rest) => end_by(total, rest),
    }
}
