// Runs of samples that stand one behind the other.
ghost use Rattle.std.specs.Prelude.{◌≡◌, ◌+◌, ◌*◌, ◌≤◌, length, take, drop};

use geotransform::Sample;

// The run of so many samples that stands behind n others of its length.
pub(crate) fn nth_run(samples: &[Sample], n: u32, len: u32) -> &[Sample]
    requires within { n * len + len ≤ length samples.now }
    ensures run { result.now ≡ take len (drop (n * len) samples.now) }
    ensures len { length result.now ≡ len }
{
    let len = len as usize;
    let from = n as usize * len;
    &samples[from..from + len]
}
