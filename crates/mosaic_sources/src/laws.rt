// What follows from the definitions.
ghost use Rattle.std.specs.Prelude.{◌≡◌, ℕ, ℤ, pos, ◌<ℤ◌, ◌≤◌, List, [], ◌∷◌, ◌++◌, length, drop, slice_get, Option};
ghost use Rattle.std.specs.Prelude.{Some, None, true, ◌<◌};
ghost use Rattle.std.specs.List.{Contains};
ghost use Rattle.std.specs.List.Sorted.{IsStrictlyIncreasing};
ghost use Rattle.std.specs.Option.{option_or};
ghost use Rattle.geotransform.specs.Types.{is_in};
ghost use Rattle.geotransform.specs.declared.types.PixelType.{PixelType};
ghost use Rattle.geotransform.specs.declared.types.Size.{Size};
ghost use Rattle.vrt_profile.specs.Values.{SourceValue};
ghost use Rattle.vrt_profile.specs.Cover.{Axis, axis_at, cover_of};
ghost use Rattle.vrt_profile.specs.Value.{given_of, last_given, takes_kind};
ghost use Rattle.mosaic_sources.specs.Pixels.{IsPixel, IsPixelOf};
ghost use Rattle.mosaic_sources.specs.Rows.{covering_lines, covers_line};

/// Each sample of each type is a pixel that a source takes.
pub fn samples_are_pixels()
    ensures within { (kind : PixelType) → (sample : ℤ) → is_in kind sample ≡ true → IsPixel sample }
    // and each of a type that a source takes is one for the source
    ensures taken { (source : SourceValue) → (kind : PixelType) → (sample : ℤ) → takes_kind source kind ≡ true →
        is_in kind sample ≡ true → IsPixelOf source sample }
{}

/// The dataset's columns of a mosaic's columns don't fall.
pub fn columns_rise()
    ensures rise { (a : Axis) → (count : ℕ) → (x : ℕ) → (y : ℕ) → (m : ℕ) → (n : ℕ) → pos 0 <ℤ a.mosaic_length →
        pos 0 <ℤ a.dataset_length → x ≤ y → axis_at a count x ≡ Some m → axis_at a count y ≡ Some n → m ≤ n }
{}

/// What a further source behind all others gives counts before what they give.
pub fn last_counts()
    ensures last { (given : SourceValue → Option ℤ) → (sources : List SourceValue) → (source : SourceValue) →
        last_given given (sources ++ source ∷ []) ≡ option_or (given source) (last_given given sources) }
{}

/// A source that covers a pixel covers its line.
pub fn covers_lines()
    ensures line { (source : SourceValue) → (mosaic : Size) → (size : Size) → (x : ℕ) → (y : ℕ) → (place : ℕ × ℕ) →
        cover_of source mosaic size x y ≡ Some place → covers_line source mosaic y ≡ true }
{}

/// A line's list has the numbers of sources alone, and a source that isn't in it gives nothing there.
pub fn unlisted_give_none()
    ensures below { (sources : List SourceValue) → (number : ℕ) → (mosaic : Size) → (y : ℕ) →
        Contains (covering_lines sources mosaic y) number → number < length sources }
    ensures none { (sources : List SourceValue) → (source : SourceValue) → (number : ℕ) → (mosaic : Size) →
        (size : Size) → (x : ℕ) → (y : ℕ) → slice_get sources number ≡ Some source →
        ¬ Contains (covering_lines sources mosaic y) number → cover_of source mosaic size x y ≡ None }
{}

/// What is given from a source on is what is given from a later one on, where no source between is in the line's
/// list.
pub fn unlisted_are_skipped()
    ensures skipped { (sources : List SourceValue) → (from : ℕ) → (to : ℕ) → (mosaic : Size) →
        (sizes : SourceValue → Size) → (pixels : SourceValue → ℕ → ℕ → ℤ) → (x : ℕ) → (y : ℕ) → from ≤ to →
        to ≤ length sources → ((n : ℕ) → from ≤ n → n < to → ¬ Contains (covering_lines sources mosaic y) n) →
        last_given (λ s. given_of s mosaic (sizes s) (pixels s) x y) (drop from sources)
        ≡ last_given (λ s. given_of s mosaic (sizes s) (pixels s) x y) (drop to sources) }
{}

/// The numbers of a line's list rise.
pub fn lists_rise()
    ensures rising { (sources : List SourceValue) → (mosaic : Size) → (y : ℕ) →
        IsStrictlyIncreasing (covering_lines sources mosaic y) }
{}
