// What holds of every output.
ghost use Rattle.std.specs.Prelude.{◌≡◌, ◌≢◌, ◌<◌, ℕ, ℤ, Bool, true, List, length, slice_get, Option, Some, IsSome};
ghost use Rattle.geotransform.specs.Types.{is_in};
ghost use Rattle.geotransform.specs.declared.types.Size.{Size};
ghost use Rattle.geotransform.specs.declared.types.PixelType.{PixelType};
ghost use Rattle.esri_hdr.specs.declared.header_parts.Layout.{Layout};
ghost use Rattle.esri_hdr.specs.declared.header_parts.RawGeo.{RawGeo};
ghost use Rattle.esri_hdr.specs.Head.{plain_head};
ghost use Rattle.dted_records.specs.Written.{IsElevation};
ghost use Rattle.translate_plan.specs.declared.band.OutBand.{OutBand};
ghost use Rattle.translate_plan.specs.declared.options.Driver.TheVariants.{Dted, Vrt};
ghost use Rattle.translate_plan.specs.Plan.{Planned, out_pixel, IsPlan};
ghost use Rattle.outside.specs.Outside.{Files};
ghost use Rattle.write_back.specs.Files.{files_of, with_files, IsTight};
ghost use Rattle.write_back.specs.Plans.{output_of, IsNamedFor};
ghost use Rattle.write_back.specs.Reading.{AreSamplesOf, HasFiles, IsDecoded, IsReadable};
ghost use Rattle.write_back.specs.View.{Output, bands_of, columns_of, is_writable, line_count_of, IsIn};
ghost use Rattle.write_back.specs.Windows.{Window, sample_of_last, AreWritten};

/// In raw data of a plain head, as translations write it, nothing but samples stands.
pub fn plain_heads_are_tight()
    ensures tight { (size : Size) (bands : ℕ) (kind : PixelType) (layout : Layout) (nodata : Option ℤ)
        (geo : Option RawGeo) → IsTight (plain_head size bands kind layout nodata geo) }
{}

/// Each plan but that of a mosaic has an output, with the plan's bands, columns and lines.
pub fn outputs_have_sizes()
    ensures some { (p : Planned) → IsPlan p → p.driver ≢ Vrt → IsSome (output_of p) }
    ensures bands { (p : Planned) (o : Output) → IsPlan p → output_of p ≡ Some o → bands_of o ≡ length p.bands }
    ensures columns { (p : Planned) (o : Output) → IsPlan p → output_of p ≡ Some o → columns_of o ≡ p.size.w }
    ensures lines { (p : Planned) (o : Output) → IsPlan p → output_of p ≡ Some o → line_count_of o ≡ p.size.h }
{}

/// An output can hold each sample of a band's type, where in a cell it is an elevation that records hold; so it can
/// hold each pixel of its plan.
pub fn outputs_hold_pixels()
    ensures samples { (p : Planned) (o : Output) (b : OutBand) (k : ℕ) (n : ℤ) → IsPlan p → output_of p ≡ Some o →
        slice_get p.bands k ≡ Some b → is_in b.kind n ≡ true → ((level : ℕ) → p.driver ≡ Dted level → IsElevation n) →
        is_writable o n ≡ true }
    ensures pixels { (p : Planned) (o : Output) (source : Size) (pixels : ℕ → ℕ → ℕ → ℤ) (k i j : ℕ) → IsPlan p →
        output_of p ≡ Some o → k < length p.bands → is_writable o (out_pixel p source pixels k i j) ≡ true }
{}

/// A folder over which an output's files are put has them. They are accepted under a name of its driver, and read as
/// its plan says: they have its size and its bands, and their pixels are the samples. A grid is read so where the
/// coordinates that its text writes, and the place that is read from them, stay below 10^12 units.
pub fn outputs_decode()
    ensures held { (m : Files) (name : List ℕ) (p : Planned) (o : Output) (samples : ℕ → ℕ → ℕ → ℤ) →
        output_of p ≡ Some o → IsNamedFor p name → HasFiles (with_files (files_of o name samples) m)
        (files_of o name samples) }
    ensures decoded { (m : Files) (verify : Bool) (name : List ℕ) (p : Planned) (o : Output) (samples : ℕ → ℕ → ℕ → ℤ) →
        IsPlan p → output_of p ≡ Some o → IsReadable p name → AreSamplesOf o samples →
        HasFiles m (files_of o name samples) → IsDecoded m verify name p samples }
{}

/// After any list of windows that were written one after another, each pixel of an output shows the sample of the last
/// window that covered it, else 0. So a list of windows has one raster.
pub fn windows_show_the_last()
    ensures last { (o : Output) (windows : List Window) (raster : ℕ → ℕ → ℕ → ℤ) → AreWritten o windows raster →
        (k x y : ℕ) → IsIn o k x y → raster k x y ≡ sample_of_last windows k x y }
{}
