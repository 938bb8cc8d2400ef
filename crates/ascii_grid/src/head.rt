// The head of a grid.
use crate::starts::Starts;
use geotransform::{GeoTransform, Sample, Size};
use std::marker::Model;

/// The head of a grid. It keeps the limits of a raster: the sides are from 1 to 4,194,304. There is
/// one place for each row, and the NODATA is a number of Int32.
#[derive(Drop)]
pub struct GridHead {
    /// Columns and lines.
    pub size: Size,
    pub geo: GeoTransform,
    pub nodata: Option<Sample>,
    /// Where each row begins, from north to south.
    pub rows: Starts,
}

impl Model for GridHead {
    ghost use Rattle.ascii_grid.specs.Grid.{Head, IsHead};

    ghost Value = { Head };

    ghost view = { λ h. record { size = h.size; geo = h.geo; nodata = h.nodata; rows = h.rows } };

    ghost invariant = { λ h. IsHead (record { size = h.size; geo = h.geo; nodata = h.nodata; rows = h.rows }) };
}
