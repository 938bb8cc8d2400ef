// How many samples a lane's share of the source has at least, where lanes read beside each other.
ghost use Rattle.strip_copies.specs.Copies.{IsTranslation};

use crate::translation::Translation;
use catalog::Kind;

/// The fewest samples for which a lane gets a thread, where they are lines of a file's bytes: a lane reads about so
/// many in the time in which a thread is started and joined.
pub const FEWEST_COPIED: usize = 1_000_000;

/// The same where samples are made of others, or of digits, or lie in columns, each of which takes several times as
/// long.
pub const FEWEST_MADE: usize = 262_144;

fn fewest_of(kind: Kind) -> usize {
    match kind {
        Kind::Raw | Kind::Hgt => FEWEST_COPIED,
        Kind::Dted | Kind::Ascii | Kind::Vrt => FEWEST_MADE,
    }
}

/// The fewest samples of a translation's source for which a lane gets a thread.
pub fn fewest_for(translation: &Translation) -> usize
    requires translation { IsTranslation translation.now.cat translation.now.id translation.now.plan }
{
    let head = translation.cat.head(translation.id);
    fewest_of(head.kind)
}
