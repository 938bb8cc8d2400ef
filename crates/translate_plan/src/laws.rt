// What holds of every plan.
ghost use Rattle.std.specs.Prelude.{◌≡◌, ◌<◌, ℕ, ℤ, true, slice_get, is_some, Some, Ok};
ghost use Rattle.geotransform.specs.Types.{is_in};
ghost use Rattle.geotransform.specs.Geo.{Transform, is_north_up, sizes_held};
ghost use Rattle.geotransform.specs.declared.types.Size.{Size};
ghost use Rattle.esri_hdr.specs.Head.{IsHead};
ghost use Rattle.dted_records.specs.Written.{IsElevation};
ghost use Rattle.catalog.specs.Dataset.{DatasetHead, IsDatasetHead};
ghost use Rattle.translate_plan.specs.Options.{Options, IsOptions};
ghost use Rattle.translate_plan.specs.Fits.{cell_in, tile_in};
ghost use Rattle.translate_plan.specs.Plan.{Planned, plan_of, out_pixel, shown, IsPlan, raw_head};
ghost use Rattle.translate_plan.specs.declared.band.OutBand.{OutBand};
ghost use Rattle.translate_plan.specs.declared.options.Driver.TheVariants.{Dted, SrtmHgt, AaiGrid};

/// What is planned keeps all limits, and its driver can hold it.
pub fn plans_are_kept()
    ensures kept { (o : Options) (h : DatasetHead) (p : Planned) → IsOptions o → IsDatasetHead h → plan_of o h ≡ Ok p →
        IsPlan p }
{}

/// Each pixel of an output is of its band's type, and one of a cell can be written by sign and magnitude.
pub fn pixels_are_held()
    ensures within { (p : Planned) (source : Size) (pixels : ℕ → ℕ → ℕ → ℤ) (k i j : ℕ) (b : OutBand) → IsPlan p →
        slice_get p.bands k ≡ Some b → is_in b.kind (out_pixel p source pixels k i j) ≡ true }
    ensures elevation { (p : Planned) (source : Size) (pixels : ℕ → ℕ → ℕ → ℤ) (k i j level : ℕ) → IsPlan p →
        p.driver ≡ Dted level → IsElevation (out_pixel p source pixels k i j) }
{}

/// A column, or line, of an output shows one of the window, and where the two have the same size, the
/// one in its place.
pub fn windows_are_shown()
    ensures within { (from to k : ℕ) → 0 < from → k < to → shown from to k < from }
    ensures same { (n k : ℕ) → 0 < n → shown n n k ≡ k }
{}

/// A plan meets what the writers of its driver ask for: the head of raw data keeps the rules of a head
/// and reads as all bands ask; a grid runs from north to south, and its sizes can be held; a cell is one
/// of its level, and a tile is one.
pub fn plans_can_be_written()
    ensures raw { (p : Planned) → IsPlan p → IsHead (raw_head p) }
    ensures grid { (p : Planned) (g : Transform) → IsPlan p → p.driver ≡ AaiGrid → p.geo ≡ Some g →
        (is_north_up g ≡ true) × (sizes_held g ≡ true) }
    ensures cell { (p : Planned) (level : ℕ) → IsPlan p → p.driver ≡ Dted level →
        is_some (cell_in level p.size p.geo) ≡ true }
    ensures tile { (p : Planned) → IsPlan p → p.driver ≡ SrtmHgt → is_some (tile_in p.size p.geo) ≡ true }
{}
