// Rows of an output's band.
ghost use Rattle.std.specs.Prelude.{◌≡◌, ◌<◌, ℕ, pos, length, get_or};
ghost use Rattle.strip_copies.specs.Rows.{made_of};

use crate::holding::Holding;
use geotransform::Sample;

// The sample that stands for the one at a place of a line of the source.
fn made_at(holding: Holding, line: &[Sample], place: u32) -> Sample
    ensures sample { result ≡ made_of holding line.now place }
{
    match line.get(place as usize) {
        Some(sample) => holding.hold(*sample),
        None => holding.fill,
    }
}

/// Makes a row of the output of a line of the source, each sample of the one at its place there.
pub fn map_row(holding: Holding, places: &[u32], line: &[Sample], row: &mut [Sample])
    requires places { length places.now ≡ length row.old }
    ensures samples { (i : ℕ) → i < length row.old → get_or row.new i (pos 0) ≡ made_of holding line.now
        (get_or places.now i 0) }
{
    for at in 0..row.len() {
        row[at] = made_at(holding, line, places[at]);
    }
}

/// Makes a row of the output that lies outside the raster.
pub fn fill_row(holding: Holding, row: &mut [Sample])
    ensures samples { (i : ℕ) → i < length row.old → get_or row.new i (pos 0) ≡ holding.fill }
{
    row.fill(holding.fill);
}
