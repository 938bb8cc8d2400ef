// What holds of the pixels of every catalog.
ghost use Rattle.std.specs.Prelude.{◌≡◌, ◌++◌, ℕ, ℤ, List, Some, slice_get};
ghost use Rattle.geotransform.specs.declared.types.Size.{Size};
ghost use Rattle.outside.specs.Outside.{Files};
ghost use Rattle.vrt_profile.specs.Values.{SourceValue, BandValue, DocumentValue};
ghost use Rattle.vrt_profile.specs.Value.{given_of, mosaic_pixel};
ghost use Rattle.catalog.specs.declared.driver.DriverHead.{DriverHead};
ghost use Rattle.catalog.specs.Drivers.{Dataset, document_of, driver_of};
ghost use Rattle.catalog.specs.Walk.{IsCatalog, IsWalked};
ghost use Rattle.catalog.specs.Links.{source_at};
ghost use Rattle.catalog.specs.Pixels.{pixel_of, pixel_of_name, file_pixel, member_size, member_pixel, TakesMember};
ghost use Rattle.catalog.specs.Pixels.{AreOfMembers};
ghost use Rattle.catalog.specs.Places.{block_rect_of, row_by_row};
ghost use Rattle.catalog.specs.Blocks.{block_pixels};

/// In a catalog that was walked over a folder's files, a dataset's pixels are what these files alone say of its name,
/// along every path of sources.
pub fn pixels_by_number_are_pixels_by_name()
    ensures same { (m : Files) (cat : List Dataset) (id band x y : ℕ) (d : Dataset) → IsCatalog cat → IsWalked m cat →
        slice_get cat id ≡ Some d → pixel_of m cat id band x y ≡ pixel_of_name m d.head.name band x y }
{}

/// The pixels of a file are the samples that its bytes hold.
pub fn file_pixels_are_samples()
    ensures pixel { (m : Files) (cat : List Dataset) (id band x y : ℕ) (d : Dataset) (h : DriverHead) →
        slice_get cat id ≡ Some d → driver_of d.content ≡ Some h →
        pixel_of m cat id band x y ≡ file_pixel m d.head.name h band x y }
    ensures block { (m : Files) (cat : List Dataset) (id band block : ℕ) (d : Dataset) (h : DriverHead) →
        slice_get cat id ≡ Some d → driver_of d.content ≡ Some h →
        block_pixels m cat id band block ≡ row_by_row (file_pixel m d.head.name h band) (block_rect_of d.head block) }
{}

/// The pixels of a mosaic are made of the pixels of the datasets that its band's sources name, whatever these sizes and
/// pixels are elsewhere.
pub fn mosaic_pixels_are_of_sources()
    ensures pixel { (m : Files) (cat : List Dataset) (id band x y : ℕ) (d : Dataset) (doc : DocumentValue)
        (b : BandValue) (sizes : SourceValue → Size) (pixels : SourceValue → ℕ → ℕ → ℤ) → IsCatalog cat →
        slice_get cat id ≡ Some d → document_of d.content ≡ Some doc → slice_get doc.bands band ≡ Some b →
        AreOfMembers m cat d band sizes pixels → pixel_of m cat id band x y ≡ mosaic_pixel b
        (λ s. given_of s doc.size (sizes s) (pixels s)) x y }
    ensures members { (m : Files) (cat : List Dataset) (d : Dataset) (band : ℕ) →
        AreOfMembers m cat d band (member_size cat d) (member_pixel m cat d) }
    ensures own { (m : Files) (cat : List Dataset) (id band x y : ℕ) (d : Dataset) (doc : DocumentValue)
        (b : BandValue) → IsCatalog cat → slice_get cat id ≡ Some d → document_of d.content ≡ Some doc →
        slice_get doc.bands band ≡ Some b → pixel_of m cat id band x y ≡ mosaic_pixel b
        (λ s. given_of s doc.size (member_size cat d s) (member_pixel m cat d s)) x y }
    ensures block { (m : Files) (cat : List Dataset) (id band block : ℕ) (d : Dataset) (doc : DocumentValue)
        (b : BandValue) (sizes : SourceValue → Size) (pixels : SourceValue → ℕ → ℕ → ℤ) → IsCatalog cat →
        slice_get cat id ≡ Some d → document_of d.content ≡ Some doc → slice_get doc.bands band ≡ Some b →
        AreOfMembers m cat d band sizes pixels → block_pixels m cat id band block ≡ row_by_row
        (mosaic_pixel b (λ s. given_of s doc.size (sizes s) (pixels s))) (block_rect_of d.head block) }
{}

/// Each source of a mosaic names a dataset of the catalog, which has the band that the source takes, with samples that
/// it takes.
pub fn sources_have_members()
    ensures there { (cat : List Dataset) (id band source : ℕ) (d : Dataset) (s : SourceValue) → IsCatalog cat →
        slice_get cat id ≡ Some d → source_at d band source ≡ Some s → TakesMember cat d band source s }
{}

/// A catalog that grows keeps the pixels of its datasets.
pub fn pixels_stay()
    ensures pixel { (m : Files) (cat more : List Dataset) (id band x y : ℕ) (d : Dataset) → IsCatalog cat →
        slice_get cat id ≡ Some d → pixel_of m (cat ++ more) id band x y ≡ pixel_of m cat id band x y }
    ensures block { (m : Files) (cat more : List Dataset) (id band block : ℕ) (d : Dataset) → IsCatalog cat →
        slice_get cat id ≡ Some d → block_pixels m (cat ++ more) id band block ≡ block_pixels m cat id band block }
{}
