// What sources are asked for.
ghost use Rattle.std.specs.Prelude.{◌≡◌, ℕ, ◌+◌, ◌*◌, ◌<◌, ◌≤◌, None, Some, slice_get, IfOk, IfSome};
ghost use Rattle.catalog.specs.Drivers.{Dataset};
ghost use Rattle.catalog.specs.Pixels.{member_size};
ghost use Rattle.catalog.specs.Places.{IsWithin};
ghost use Rattle.nearest_window.specs.Canvases.{IsAsked, IsCanvas, IsUnasked};
ghost use Rattle.nearest_window.specs.Shown.{IsSourceOf};

use crate::canvas::Canvas;
use crate::members::{Numbered, seen_in};
use crate::picture::Picture;
use crate::taking::Taking;
use catalog::Catalog;
use geotransform::{Rect, Sample};
use std::alloc::{AllocError, Global};

/// What a source is asked for: pixels of its dataset, which are those of a part of a canvas, and room for
/// them.
#[derive(Drop)]
pub struct Asked<'a> {
    pub picture: Picture<'a>,
    pub part: Rect,
    pub pixels: Vec<Sample>,
}

// The pixels of a picture as they are, beside the rows that it would be painted over.
fn picture_alone<'a>(picture: Picture<'a>) -> Picture<'a>
    ensures dataset { result.dataset ≡ picture.entry.dataset }
    ensures band { result.band ≡ picture.entry.band }
    ensures taking { result.taking ≡ Taking.All }
    ensures width { result.width ≡ picture.entry.width }
    ensures columns { result.columns ≡ picture.entry.columns }
    ensures height { result.height ≡ picture.entry.height }
    ensures lines { result.lines ≡ picture.entry.lines }
    ensures to { result.to ≡ 0 }
    ensures stride { result.stride ≡ picture.entry.width }
{
    let stride = picture.width as usize;
    Picture {
        taking: Taking::All,
        to: 0,
        top: 0,
        stride,
        ..picture
    }
}

/// What a source of a mosaic's band is asked for on a canvas. `None` where all that it covers there is
/// filled. It is refused where memory is.
pub fn asked_of<'a>(
    alloc: Global,
    cat: &Catalog,
    source: Numbered<'a>,
    canvas: &Canvas,
) -> Result<Option<Asked<'a>>, AllocError>
    requires source { IsSourceOf cat.now source.key source.number source.source.now }
    requires within { (d : Dataset) → slice_get cat.now source.key.dataset ≡ Some d →
        IsWithin canvas.now.rect d.head.size }
    requires canvas { IsCanvas canvas.now }
    ensures none { IfOk result (λ o. o ≡ None → (d : Dataset) → slice_get cat.now source.entry.key.dataset ≡ Some d →
        IsUnasked source.entry.source.now d.head.size (member_size cat.now d source.entry.source.now) canvas.now) }
    ensures asked { IfOk result (λ o. IfSome o (IsAsked cat.now source.entry.key source.entry.source.now canvas.now)) }
{
    // This call is made for the proof: it says what holds of every catalog.
    let _count = cat.count();
    let rect = canvas.rect;
    let Some(picture) = seen_in(alloc, cat, source, rect)? else {
        return Ok(None);
    };
    let part = Rect {
        x: rect.x + picture.to as u32,
        y: rect.y + picture.top as u32,
        w: picture.width,
        h: picture.height,
    };
    let pixels = vec![in alloc; 0; (part.w * part.h) as usize]?;
    Ok(Some(Asked {
        picture: picture_alone(picture),
        part,
        pixels,
    }))
}
