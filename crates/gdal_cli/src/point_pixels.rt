// The pixels in which points lie.
ghost use Rattle.std.specs.Prelude.{◌≡◌, ◌<◌, IfSome, pos};
ghost use Rattle.geotransform.specs.Print.{unit};
ghost use Rattle.geotransform.specs.Places.{floor_of};
ghost use Rattle.geotransform.specs.Pixels.{within};
ghost use Rattle.gdal_cli.specs.Location.{column_and_line};

use geotransform::{GeoTransform, Ticks, floor_of};
use input_points::Position;

/// A whole number as a column or a line, where the side has it.
pub fn within(side: u32, place: i128) -> Option<u32>
    ensures value { result ≡ within side place }
    ensures within { IfSome result (λ n. n < side) }
{
    if place < 0 || place >= i128::from(side) {
        None
    } else {
        Some(place as u32)
    }
}

// The column or the line in which a number of pixels lies.
fn floor(number: Position) -> i128
    ensures { result ≡ floor_of number (pos unit) }
{
    floor_of(number.get().get(), Ticks::UNIT.get())
}

/// The column and the line of a point, which may be off the raster.
#[tactic(auto, using(crate::proofs::Placed::read_near))]
pub fn column_and_line(frame: Option<GeoTransform>, x: Position, y: Position) -> (i128, i128)
    ensures place { result ≡ column_and_line frame x y }
{
    match frame {
        None => (floor(x), floor(y)),
        Some(geo) => geo.locate(x.get(), y.get()),
    }
}
