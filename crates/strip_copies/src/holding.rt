// What a band of an output makes of samples.
ghost use Rattle.std.specs.Prelude.{◌≡◌, ◌<◌, ℤ, true, length};
ghost use Rattle.geotransform.specs.Types.{is_in};
ghost use Rattle.strip_copies.specs.Rows.{least_sample_by, nearest, IsHolding};

use geotransform::{PixelType, Sample};
use translate_plan::{Driver, Plan};

/// The least and the greatest sample that a band of an output can hold, and the one that stands outside the raster.
#[derive(Clone, Copy)]
pub struct Holding {
    pub least: Sample,
    pub most: Sample,
    pub fill: Sample,
}

// The least sample of a driver's files: that of the type, in a cell the least elevation.
fn least_of(driver: Driver, kind: PixelType) -> Sample
    ensures least { result ≡ least_sample_by driver kind }
{
    match driver {
        Driver::Dted { .. } => -32_767,
        Driver::EHdr | Driver::SrtmHgt | Driver::AaiGrid | Driver::Vrt => kind.lowest(),
    }
}

impl Holding {
    /// What an output band can hold, by its number from 0.
    pub fn of(plan: &Plan, band: u32) -> Holding
        requires band { band < length plan.now.bands }
        ensures holding { IsHolding plan.now band result }
    {
        plan.rules();
        let kind = plan.kind(band);
        let nodata = plan.nodata(band);
        Holding {
            least: least_of(plan.driver, kind),
            most: kind.highest(),
            fill: nodata.unwrap_or(0),
        }
    }

    /// Whether the band can hold each number of a type.
    pub fn holds_all(&self, kind: PixelType) -> bool
        ensures same { result ≡ true → (v : ℤ) → is_in kind v ≡ true → nearest self.now.least self.now.most v ≡ v }
    {
        self.least <= kind.lowest() && kind.highest() <= self.most
    }

    /// The sample nearest to `value` that the band can hold.
    pub fn hold(&self, value: Sample) -> Sample
        ensures nearest { result ≡ nearest self.now.least self.now.most value }
    {
        if value < self.least {
            self.least
        } else if self.most < value {
            self.most
        } else {
            value
        }
    }
}
