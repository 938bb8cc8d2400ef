// What holds of every raw file.
ghost use Rattle.std.specs.Prelude.{◌≡◌, ◌<◌, ◌≤◌, ℕ, ◌+◌, ◌-◌, List, drop};
ghost use Rattle.esri_hdr.specs.Head.{Head, IsHead, sample_len};
ghost use Rattle.interleaved_raw.specs.Raw.{position_of, IsPlace, IsSamePlace, needed_of, strided_at, raw_at};

/// Each sample ends within the bytes that the file must have.
pub fn last_sample_is_last()
    ensures within { (h : Head) (band x y : ℕ) → IsPlace h band x y → position_of h band x y + sample_len h.kind
        ≤ needed_of h }
{}

/// A run that begins at a sample of the file is the samples of its band and line from there on.
pub fn run_is_of_the_file()
    ensures same { (h : Head) (bytes : List ℕ) (band x y i : ℕ) → strided_at h (drop (position_of h band x y) bytes) i
        ≡ raw_at h bytes band (x + i) y }
{}

/// Two samples that share a byte are of the same band, column and line.
pub fn samples_lie_apart()
    ensures apart { (h : Head) (band x y other u v : ℕ) → IsHead h → IsPlace h band x y → IsPlace h other u v →
        position_of h band x y < position_of h other u v + sample_len h.kind →
        position_of h other u v < position_of h band x y + sample_len h.kind → IsSamePlace band x y other u v }
{}
