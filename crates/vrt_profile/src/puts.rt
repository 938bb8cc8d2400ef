// Parts of an element put in their places.
ghost use Rattle.std.specs.Prelude.{◌≡◌, ◌<◌, ◌≤◌, length, IfOk, OnErr, Option, Some};
ghost use Rattle.vrt_markup.specs.Forest.{deepest, inner, read_as};
ghost use Rattle.vrt_markup.specs.Views.{tag_view};
ghost use Rattle.vrt_markup.specs.Kept.{Gives, kept_of};
ghost use Rattle.vrt_profile.specs.Means.{once};

use std::alloc::Global;
use vrt_markup::{Level, Tag, VrtFault, past_element};

/// Puts a part that may stand once; a second one is refused.
pub fn put_once<T: Drop>(place: &mut Option<T>, part: Result<T, VrtFault>) -> Result<(), VrtFault>
    ensures put { kept_of place.new result ≡ once place.old part Some }
    ensures err { OnErr result (place.new ≡ place.old) }
{
    if place.is_some() {
        return Err(VrtFault::Unsupported);
    }
    *place = Some(part?);
    Ok(())
}

/// What is kept, with an element that is read past.
pub fn past_child<'a>(
    alloc: Global,
    level: Level,
    kept: Result<(), VrtFault>,
    tag: Tag,
    bytes: &'a [u8],
) -> Result<(Result<(), VrtFault>, &'a [u8]), VrtFault>
    requires within { length bytes.now ≤ level.total }
    requires depth { level.depth < deepest }
    ensures child { Gives (λ x. (x.0, x.1.now)) result (read_as (λ f. kept)
        (inner level.total level.depth (tag_view tag.entry) bytes.now)) }
    ensures shorter { IfOk result (λ x. length x.1.now ≤ length bytes.now) }
{
    match past_element(alloc, level.total, level.depth, tag, bytes) {
        Ok(rest) => Ok((kept, rest)),
        Err(error) => Err(error),
    }
}
