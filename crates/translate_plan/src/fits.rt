// What the driver of an output can hold.
ghost use Rattle.std.specs.Prelude.{◌≡◌, ◌<◌, ◌≤◌, ◌^◌, ◌*◌, ◌≢◌, ◌++◌, pos, neg_ℤ, ◌+ℤ◌, ◌-ℤ◌, ◌*ℤ◌, IfSome};
ghost use Rattle.std.specs.Prelude.{is_some, ◌&&◌, None, codes};
ghost use Rattle.geotransform.specs.Geo.{IsRaster, is_north_up, sizes_held};
ghost use Rattle.geotransform.specs.Places.{are_same};
ghost use Rattle.hgt_tiles.specs.Names as tiles;
ghost use Rattle.esri_hdr.specs.Head.{GeoFits, raw_geo_of};
ghost use Rattle.translate_plan.specs.Options.{IsDriver};
ghost use Rattle.translate_plan.specs.Limits.{IsWindow};
ghost use Rattle.translate_plan.specs.Fits.{is_single, own_nodata, band_count_in, rounded, rounded_for, geo_in};
ghost use Rattle.translate_plan.specs.Fits.{place_in, raw_geo_in, cell_in, tile_in, holds_geo, is_named, holds_name};
ghost use Rattle.translate_plan.specs.Fits.{is_int16, is_within_int32, takes_kind, holds_kinds, takes_number};
ghost use Rattle.translate_plan.specs.Fits.{takes_nodata};

use crate::band::{MOST_BANDS, OutBand};
use crate::options::Driver;
use crate::window::Window;
use catalog::NodataWord;
use dted_records::DtedHead;
use esri_hdr::RawGeo;
use geotransform::{
    GeoTransform, PixelType, PlanFault, Sample, Size, holds, is_north_up, round16, sizes_held,
};
use hgt_tiles::{Corner, name_of};
use outside::Name;

fn is_single(driver: Driver) -> bool
    ensures { result ≡ is_single driver }
{
    match driver {
        Driver::EHdr | Driver::Vrt => false,
        Driver::Dted { .. } | Driver::SrtmHgt | Driver::AaiGrid => true,
    }
}

/// The NODATA that the files of a driver have by their format.
pub fn own_nodata(driver: Driver) -> Option<Sample>
    ensures { result ≡ own_nodata driver }
{
    match driver {
        Driver::EHdr | Driver::AaiGrid | Driver::Vrt => None,
        Driver::Dted { .. } => Some(-32_767),
        Driver::SrtmHgt => Some(-32_768),
    }
}

/// `Limit` exactly where there are more than 256 bands, else `BandCount` where there is more than one
/// and the driver's files have one.
pub fn count_in(driver: Driver, n: usize) -> Result<(), PlanFault>
    ensures count { result ≡ band_count_in driver n }
{
    if n > MOST_BANDS {
        Err(PlanFault::Limit)
    } else if n > 1 && is_single(driver) {
        Err(PlanFault::BandCount)
    } else {
        Ok(())
    }
}

fn rounded(geo: &GeoTransform) -> Option<GeoTransform>
    ensures value { result ≡ rounded geo.now }
{
    let ox = round16(geo.ox);
    let oy = round16(geo.oy);
    let dx = round16(geo.dx);
    let dy = round16(geo.dy);
    GeoTransform::new(ox, oy, dx, dy)
}

fn rounded_for(driver: Driver, geo: &GeoTransform) -> Option<GeoTransform>
    ensures value { result ≡ rounded_for driver geo.now }
{
    match driver {
        Driver::Vrt => rounded(geo),
        Driver::EHdr | Driver::Dted { .. } | Driver::SrtmHgt | Driver::AaiGrid => Some(*geo),
    }
}

/// The geotransform of the output. `Limit` exactly where the source has one and the cut one is none.
pub fn geo_in(
    driver: Driver,
    geo: &Option<GeoTransform>,
    window: &Window,
    size: Size,
) -> Result<Option<GeoTransform>, PlanFault>
    requires window { IsWindow window.now }
    requires size { IsRaster size }
    ensures geo { result ≡ geo_in driver geo.now window.now size }
{
    let Some(geo) = geo else {
        return Ok(None);
    };
    let Some(cut) = geo.cut(window.x, window.y, window.size, size) else {
        return Err(PlanFault::Limit);
    };
    match rounded_for(driver, &cut) {
        None => Err(PlanFault::Limit),
        Some(geo) => Ok(Some(geo)),
    }
}

/// `NoGeo` exactly where a cell or a tile has no geotransform.
pub fn place_in(driver: Driver, geo: &Option<GeoTransform>) -> Result<(), PlanFault>
    ensures place { result ≡ place_in driver geo.now }
{
    if own_nodata(driver).is_some() && geo.is_none() {
        Err(PlanFault::NoGeo)
    } else {
        Ok(())
    }
}

/// The head of the cell of this level that the raster is.
#[tactic(auto, using(crate::proofs::Fitted::cell_found, crate::proofs::Fitted::cell_missed))]
pub fn cell_in(level: u32, size: Size, geo: &Option<GeoTransform>) -> Option<DtedHead>
    requires { level ≤ 2 }
    ensures value { result ≡ cell_in level size geo.now }
{
    let Some(geo) = geo else {
        return None;
    };
    match dted_records::fit(size, geo, level) {
        Ok(head) => Some(head),
        Err(_) => None,
    }
}

/// The corner of the tile that the raster is.
#[tactic(auto, using(crate::proofs::Fitted::tile_found, crate::proofs::Fitted::tile_missed))]
pub fn tile_in(size: Size, geo: &Option<GeoTransform>) -> Option<Corner>
    ensures value { result ≡ tile_in size geo.now }
{
    let Some(geo) = geo else {
        return None;
    };
    match hgt_tiles::fit(size, geo) {
        Ok(corner) => Some(corner),
        Err(_) => None,
    }
}

/// What an ESRI header says of a geotransform, where there is one that it can hold.
pub fn raw_geo_in(geo: &Option<GeoTransform>) -> Option<RawGeo>
    ensures value { result ≡ raw_geo_in geo.now }
    ensures fits { IfSome result GeoFits }
{
    match geo {
        None => None,
        Some(geo) => RawGeo::of(geo),
    }
}

fn raw_holds(geo: &GeoTransform) -> bool
    ensures { result ≡ is_some (raw_geo_of geo.now) }
{
    RawGeo::of(geo).is_some()
}

fn grid_holds(geo: &GeoTransform) -> bool
    ensures { result ≡ is_north_up geo.now && sizes_held geo.now }
{
    is_north_up(geo) && sizes_held(geo)
}

/// Whether the driver can hold the geotransform, or none, of a raster of this size.
pub fn holds_geo(driver: Driver, size: Size, geo: &Option<GeoTransform>) -> bool
    requires driver { IsDriver driver }
    ensures { result ≡ holds_geo driver size geo.now }
{
    match driver {
        Driver::SrtmHgt => tile_in(size, geo).is_some(),
        Driver::Vrt => true,
        Driver::EHdr => match geo {
            None => true,
            Some(geo) => raw_holds(geo),
        },
        Driver::Dted { level } => cell_in(level, size, geo).is_some(),
        Driver::AaiGrid => match geo {
            None => true,
            Some(geo) => grid_holds(geo),
        },
    }
}

/// The last part of the name of a corner's tile.
fn tile_name(corner: Corner) -> [u8; 11]
    ensures { result ≡ tiles.name_of corner ++ codes ".hgt" }
{
    let [a, b, c, d, e, f, g] = name_of(corner);
    [a, b, c, d, e, f, g, b'.', b'h', b'g', b't']
}

fn is_named(name: &Name, corner: Option<Corner>) -> bool
    ensures { result ≡ is_named name.now corner }
{
    match corner {
        None => false,
        Some(corner) => name
            .last_part()
            .as_bytes()
            .eq_ignore_ascii_case(&tile_name(corner)),
    }
}

pub fn holds_name(driver: Driver, name: &Name, size: Size, geo: &Option<GeoTransform>) -> bool
    ensures { result ≡ holds_name driver name.now size geo.now }
{
    match driver {
        Driver::SrtmHgt => is_named(name, tile_in(size, geo)),
        Driver::EHdr | Driver::Dted { .. } | Driver::AaiGrid | Driver::Vrt => true,
    }
}

fn is_int16(kind: PixelType) -> bool
    ensures { result ≡ is_int16 kind }
{
    kind.bytes() == 2 && kind.is_signed()
}

/// Whether each number of the type is one of Int32.
fn is_within_int32(kind: PixelType) -> bool
    ensures { result ≡ is_within_int32 kind }
{
    holds(PixelType::Int32, kind.lowest()) && holds(PixelType::Int32, kind.highest())
}

pub fn takes_kind(driver: Driver, kind: Option<PixelType>) -> bool
    ensures { result ≡ takes_kind driver kind }
{
    match kind {
        None => true,
        Some(kind) => own_nodata(driver).is_none() || is_int16(kind),
    }
}

/// Whether each number of each band is one of Int32.
fn all_within_int32(bands: &[OutBand]) -> bool
    ensures { result ≡ holds_kinds Driver.AaiGrid bands.now }
{
    for band in bands {
        if !is_within_int32(band.kind) {
            return false;
        }
    }
    true
}

pub fn holds_kinds(driver: Driver, bands: &[OutBand]) -> bool
    ensures { result ≡ holds_kinds driver bands.now }
{
    match driver {
        Driver::AaiGrid => all_within_int32(bands),
        Driver::EHdr | Driver::Dted { .. } | Driver::SrtmHgt | Driver::Vrt => true,
    }
}

/// Whether two numbers are the same.
pub fn are_same(a: Sample, b: Sample) -> bool
    ensures { result ≡ are_same a b }
{
    a <= b && b <= a
}

/// Whether the number is of the type of each band.
fn all_hold(n: Sample, bands: &[OutBand]) -> bool
    ensures { result ≡ takes_number None n bands.now }
{
    for band in bands {
        if !holds(band.kind, n) {
            return false;
        }
    }
    true
}

fn takes_number(own: Option<Sample>, n: Sample, bands: &[OutBand]) -> bool
    ensures { result ≡ takes_number own n bands.now }
{
    match own {
        Some(own) => are_same(n, own),
        None => all_hold(n, bands),
    }
}

pub fn takes_nodata(driver: Driver, nodata: NodataWord, bands: &[OutBand]) -> bool
    ensures { result ≡ takes_nodata driver nodata bands.now }
{
    match nodata {
        NodataWord::Absent => true,
        NodataWord::Remove => own_nodata(driver).is_none(),
        NodataWord::Number(n) => takes_number(own_nodata(driver), n, bands),
    }
}
