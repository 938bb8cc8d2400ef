// What a translation does.
ghost use Rattle.std.specs.Prelude.{◌≡◌, ◌<◌, ◌≤◌, length, slice_get, option_map, Some, Ok};
ghost use Rattle.translate_plan.specs.Bands.{count_of};
ghost use Rattle.translate_plan.specs.Limits.{AreKnown};
ghost use Rattle.esri_hdr.specs.Head.{IsHead};
ghost use Rattle.translate_plan.specs.Plan.{plan_of, planned_by, first_band, raw_head, IsOutBand, IsPlan};
ghost use Rattle.translate_plan.specs.declared.options.Driver.TheVariants.{EHdr};
ghost use Rattle.geotransform.specs.Limits.{most_bands};
ghost use Rattle.catalog.specs.Dataset.{band_count};

use crate::band::{MOST_BANDS, OutBand};
use crate::bands::out_table;
use crate::fits::raw_geo_in;
use crate::options::{Driver, TranslateOptions};
use crate::window::Window;
use catalog::Head;
use esri_hdr::{Layout, RawHead};
use geotransform::{GeoTransform, PixelType, Sample, Size};
use std::marker::Model;

/// What a translation does. It keeps that its sizes, its offset and its bands are within their limits,
/// that each NODATA is of its band's type, and that the driver can hold them and the geotransform.
#[derive(Drop)]
pub struct Plan {
    pub driver: Driver,
    /// How the bands of raw data lie.
    pub layout: Layout,
    /// The number of bands.
    pub bands: u32,
    /// Columns and lines of the output.
    pub size: Size,
    /// The column of the source at which its window begins, which may be outside.
    pub x: i64,
    /// The line of the source at which its window begins.
    pub y: i64,
    /// Columns and lines of the window.
    pub window: Size,
    pub geo: Option<GeoTransform>,
    // The bands, and behind them places without one.
    table: [OutBand; MOST_BANDS],
}

impl Model for Plan {
    ghost use Rattle.std.specs.Prelude.{take, ◌≤◌};
    ghost use Rattle.translate_plan.specs.Plan.{Planned, IsPlan};
    ghost use Rattle.geotransform.specs.Limits.{most_bands};

    ghost Value = { Planned };

    ghost view = { λ p. record {
      driver = p.driver;
      layout = p.layout;
      bands = take p.bands p.table;
      size = p.size;
      x = p.x;
      y = p.y;
      window = p.window;
      geo = p.geo;
    } };

    ghost invariant = { λ p. (p.bands ≤ most_bands) × IsPlan (record {
      driver = p.driver;
      layout = p.layout;
      bands = take p.bands p.table;
      size = p.size;
      x = p.x;
      y = p.y;
      window = p.window;
      geo = p.geo;
    }) };
}

impl Plan {
    /// The band of the output, counted from 0.
    fn band(&self, k: u32) -> OutBand
        requires { k < length self.now.bands }
        ensures { slice_get self.now.bands k ≡ Some result }
    {
        self.table[k as usize]
    }

    /// The first band.
    #[tactic(auto, using(crate::proofs::Written::first_is, crate::proofs::Written::first_fits))]
    fn first(&self) -> OutBand
        ensures value { result ≡ first_band self.now }
        ensures rules { IsOutBand result }
    {
        // This is read for the proof: a plan has a band.
        let _ = &self.bands;
        self.band(0)
    }

    /// The type of an output band, counted from 0.
    pub fn kind(&self, k: u32) -> PixelType
        requires { k < length self.now.bands }
        ensures kind { option_map (λ b. b.kind) (slice_get self.now.bands k) ≡ Some result }
    {
        self.band(k).kind
    }

    /// The NODATA of an output band, counted from 0.
    pub fn nodata(&self, k: u32) -> Option<Sample>
        requires { k < length self.now.bands }
        ensures nodata { option_map (λ b. b.nodata) (slice_get self.now.bands k) ≡ Some result }
    {
        self.band(k).nodata
    }

    /// The source's band, counted from 0, that an output band shows.
    pub fn source(&self, k: u32) -> u32
        requires { k < length self.now.bands }
        ensures source { option_map (λ b. b.source) (slice_get self.now.bands k) ≡ Some result }
    {
        self.band(k).source
    }

    /// The number of bands.
    pub fn count(&self) -> u32
        ensures count { result ≡ length self.now.bands }
    {
        self.table[..self.bands as usize].len() as u32
    }

    /// The head of the raw data: its samples alone, in the plan's layout, with the type and the NODATA
    /// of the first band, which are those of all bands.
    pub fn raw_head(&self) -> RawHead
        requires raw { self.now.driver ≡ EHdr }
        ensures head { result ≡ raw_head self.now }
        ensures rules { IsHead result }
    {
        let band = self.first();
        RawHead::plain(
            self.size,
            self.count(),
            band.kind,
            self.layout,
            band.nodata,
            raw_geo_in(&self.geo),
        )
    }

    /// What every plan keeps.
    pub fn rules(&self)
        ensures kept { IsPlan self.now }
    {
        // The plan is read for the proof: what holds of every plan is known then.
        let _ = &self.bands;
    }
}

/// The plan of what was found, which keeps its rules since it is what is planned.
pub fn made(
    options: &TranslateOptions,
    head: &Head,
    window: &Window,
    size: Size,
    geo: Option<GeoTransform>,
    count: usize,
) -> Plan
    requires known { AreKnown options.now.bands (band_count head.now) }
    requires count { count ≡ count_of options.now.bands (band_count head.now) }
    requires few { count ≤ most_bands }
    requires planned { plan_of options.now head.now ≡ Ok (planned_by options.now head.now window.now size geo) }
    ensures plan { result ≡ planned_by options.now head.now window.now size geo }
    ensures kept { IsPlan result }
{
    // This is read for the proof: the limits of a head.
    let _ = &head.size;
    Plan {
        driver: options.driver,
        layout: options.layout,
        bands: count as u32,
        size,
        x: window.x,
        y: window.y,
        window: window.size,
        geo,
        table: out_table(options, head, count),
    }
}
