// What words ask for as NODATA.
use geotransform::Sample;

/// What is asked for as the NODATA of a band: nothing, that there be none, or a number.
#[derive(Clone, Copy, PartialEq, Eq, Debug)]
pub enum NodataWord {
    /// Nothing is asked for.
    Absent,
    /// There is to be none.
    Remove,
    Number(Sample),
}
