// What holds of every head.
ghost use Rattle.std.specs.Prelude.{◌≡◌, ◌<◌, ◌≤◌, ◌+ℤ◌, ℕ, ℤ, true, Ok, Option, IfSome};
ghost use Rattle.geotransform.specs.Types.{is_in};
ghost use Rattle.geotransform.specs.Geo.{Transform, IsRaster};
ghost use Rattle.geotransform.specs.declared.types.Size.{Size};
ghost use Rattle.geotransform.specs.declared.types.PixelType.{PixelType};
ghost use Rattle.esri_hdr.specs.declared.header_parts.Layout.{Layout};
ghost use Rattle.esri_hdr.specs.Head.{Head, IsHead, GeoFits, esri_head, half_of, raw_geo, holds_transform, plain_head};
ghost use Rattle.esri_hdr.specs.Text.{hdr_text};
ghost use Rattle.esri_hdr.specs.declared.header_parts.RawGeo.{RawGeo};
ghost use Rattle.geotransform.specs.Limits.{most_bands};

/// The text that is written of a head is read as the head.
pub fn written_reads_back()
    ensures same { (h : Head) → IsHead h → esri_head (hdr_text h) ≡ Ok h }
{}

/// The halves of the sizes of a pixel, by which its corner is found, are exact.
pub fn halves_are_exact()
    ensures width { (g : RawGeo) → GeoFits g → half_of g.xdim +ℤ half_of g.xdim ≡ g.xdim }
    ensures height { (g : RawGeo) → GeoFits g → half_of g.ydim +ℤ half_of g.ydim ≡ g.ydim }
{}

/// What a header says of a geotransform that it can hold keeps the rules of a header.
pub fn held_places_fit()
    ensures fits { (g : Transform) → holds_transform g ≡ true → GeoFits (raw_geo g) }
{}

/// The head of a file that has its samples alone keeps the rules of a head.
pub fn plain_heads_are_heads()
    ensures rules { (size : Size) (bands : ℕ) (kind : PixelType) (layout : Layout) (nodata : Option ℤ)
        (geo : Option RawGeo) → IsRaster size → 0 < bands → bands ≤ most_bands →
        IfSome nodata (λ n. is_in kind n ≡ true) → IfSome geo GeoFits →
        IsHead (plain_head size bands kind layout nodata geo) }
{}
