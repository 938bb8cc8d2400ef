// Elements that are read past, with all that they hold.
ghost use Rattle.std.specs.Prelude.{◌≡◌, true, ◌<◌, ◌≤◌, ◌+◌, length, IfOk, Result, Ok, Err};
ghost use Rattle.vrt_markup.specs.Items.{is_name};
ghost use Rattle.vrt_markup.specs.Forest.{deepest, nodes, inner};
ghost use Rattle.vrt_markup.specs.Views.{tag_view, past};
ghost use Rattle.vrt_markup.specs.Kept.{Gives};

use crate::ends::own_end;
use crate::fault::VrtFault;
use crate::items::{Item, item_at};
use crate::tag::Tag;
use std::alloc::Global;

/// How deep an element stands at most, where the root stands at 1.
pub const DEEPEST: usize = 64;

#[tactic(auto, using(crate::proofs::Behind::past_bad, crate::proofs::Behind::past_comment, crate::proofs::Behind::past_run, crate::proofs::Behind::past_close, crate::proofs::Behind::past_end, crate::proofs::Behind::past_other, crate::proofs::Behind::past_deep, crate::proofs::Behind::past_open, crate::proofs::Behind::past_fails))]
#[cycle(past)]
#[inline(never)]
// What stands behind the end of an element.
fn past_nodes<'a>(
    alloc: Global,
    total: usize,
    depth: usize,
    name: &[u8],
    text: &'a [u8],
) -> Result<&'a [u8], VrtFault>
    requires within { length text.now ≤ total }
    requires depth { depth ≤ deepest }
    requires named { is_name name.now ≡ true }
    ensures rest { Gives (λ r. r.now) result (past (nodes total depth name.now text.now)) }
    ensures shorter { IfOk result (λ r. length r.now < length text.now) }
{
    let mut rest = text;
    'items: loop {
        if let Some(behind) = own_end(rest, name) {
            return Ok(behind);
        }
        match item_at(alloc, rest) {
            Item::NoMemory => return Err(VrtFault::Memory),
            Item::Bad => return Err(VrtFault::BadText((total - rest.len()) as u64)),
            Item::Comment(more) => rest = more,
            Item::Run(_, more) => rest = more,
            Item::Close(other, more) => {
                if other == name {
                    return Ok(more);
                }
                return Err(VrtFault::BadText((total - rest.len()) as u64));
            }
            Item::Open(tag, more) => {
                if depth >= DEEPEST {
                    return Err(VrtFault::Limit);
                }
                match past_element(alloc, total, depth, tag, more) {
                    Ok(behind) => rest = behind,
                    Err(fault) => return Err(fault),
                }
            }
        }
    }
}

#[cycle(past)]
/// What stands behind an element that begins with a tag.
pub fn past_element<'a>(
    alloc: Global,
    total: usize,
    depth: usize,
    tag: Tag,
    text: &'a [u8],
) -> Result<&'a [u8], VrtFault>
    requires within { length text.now ≤ total }
    requires depth { depth < deepest }
    ensures rest { Gives (λ r. r.now) result (past (inner total depth (tag_view tag.entry) text.now)) }
    ensures shorter { IfOk result (λ r. length r.now ≤ length text.now) }
{
    if tag.empty {
        return Ok(text);
    }
    past_nodes(alloc, total, depth + 1, tag.name, text)
}
