// The lines on a geotransform. Each call may be refused memory.
ghost use Rattle.std.specs.Prelude.{◌≡◌, ◌≤◌, ◌++◌, pos, Some, OnOk};
ghost use Rattle.geotransform.specs.Geo.{IsRaster, corner_of};
ghost use Rattle.info_report.specs.Report.{pair_text, corner_text, corners_text, geo_text};
ghost use Rattle.geotransform.specs.Limits.{most_side};

use geotransform::{GeoTransform, Size, Ticks, print_decimal};
use std::alloc::AllocError;

/// Appends a line with two numbers of so many places.
#[tactic(auto, using(crate::proofs::Appended::five), unfolding(crate::specs::Report::pair_text))]
fn push_pair(
    name: &[u8],
    places: u32,
    between: &[u8],
    x: Ticks,
    y: Ticks,
    out: &mut Vec<u8>,
) -> Result<(), AllocError>
    requires { places ≤ 16 }
    ensures { OnOk result (out.new.items ≡ out.old.items ++ pair_text name.now places between.now x y) }
{
    out.extend_from_slice(name)?;
    print_decimal(x, places, out)?;
    out.extend_from_slice(between)?;
    print_decimal(y, places, out)?;
    out.extend_from_slice(b")\n")?;
    Ok(())
}

/// Appends the line of the corner at column `x`, line `y`.
fn push_corner(
    name: &[u8],
    geo: &GeoTransform,
    x: u32,
    y: u32,
    out: &mut Vec<u8>,
) -> Result<(), AllocError>
    requires x { x ≤ most_side }
    requires y { y ≤ most_side }
    ensures { OnOk result (out.new.items ≡ out.old.items ++ corner_text name.now (corner_of geo.now (pos x) (pos y))) }
{
    let (px, py) = geo.corner(x as i64, y as i64);
    push_pair(name, 9, b", ", px, py, out)
}

/// Appends the lines of the corners.
#[tactic(auto, using(crate::proofs::Appended::four), unfolding(crate::specs::Report::corners_text))]
fn push_corners(geo: &GeoTransform, size: Size, out: &mut Vec<u8>) -> Result<(), AllocError>
    requires { IsRaster size }
    ensures { OnOk result (out.new.items ≡ out.old.items ++ corners_text geo.now size) }
{
    push_corner(b"Upper Left  (", geo, 0, 0, out)?;
    push_corner(b"Lower Left  (", geo, 0, size.h, out)?;
    push_corner(b"Upper Right (", geo, size.w, 0, out)?;
    push_corner(b"Lower Right (", geo, size.w, size.h, out)?;
    Ok(())
}

/// Appends the lines of a geotransform.
#[tactic(auto, using(crate::proofs::Appended::four), unfolding(crate::specs::Report::geo_text))]
fn push_transform(geo: &GeoTransform, size: Size, out: &mut Vec<u8>) -> Result<(), AllocError>
    requires { IsRaster size }
    ensures { OnOk result (out.new.items ≡ out.old.items ++ geo_text (Some geo.now) size) }
{
    push_pair(b"Origin = (", 15, b",", geo.ox, geo.oy, out)?;
    push_pair(b"Pixel Size = (", 15, b",", geo.dx, geo.dy, out)?;
    out.extend_from_slice(b"Corner Coordinates:\n")?;
    push_corners(geo, size, out)?;
    Ok(())
}

/// Appends the lines of the geotransform, where there is one.
#[tactic(auto, using(crate::proofs::Appended::none), unfolding(crate::specs::Report::geo_text))]
pub fn push_geo(geo: &Option<GeoTransform>, size: Size, out: &mut Vec<u8>) -> Result<(), AllocError>
    requires { IsRaster size }
    ensures { OnOk result (out.new.items ≡ out.old.items ++ geo_text geo.now size) }
{
    match geo {
        None => Ok(()),
        Some(geo) => push_transform(geo, size, out),
    }
}
