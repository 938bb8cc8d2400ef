// What is known of a dataset.
use crate::{Bands, Kind};
use geotransform::{GeoTransform, Size};
use outside::{Name, Names, Text};
use std::marker::Model;

/// What is known of a dataset before its pixels are read. It keeps the limits of a raster: sides from
/// 1 to 4,194,304, 1 to 256 bands, the blocks of its kind, and each NODATA in the type of its band.
#[derive(Drop)]
pub struct Head {
    pub name: Name,
    pub kind: Kind,
    /// Columns and lines.
    pub size: Size,
    pub geo: Option<GeoTransform>,
    /// The text of the coordinate system.
    pub srs: Option<Text>,
    pub bands: Bands,
    /// The dataset's own files, the one of its name first.
    pub files: Names,
}

impl Model for Head {
    ghost use Rattle.catalog.specs.Dataset.{DatasetHead, IsDatasetHead};

    ghost Value = { DatasetHead };

    ghost view = { λ h. record {
      name = h.name;
      kind = h.kind;
      size = h.size;
      geo = h.geo;
      srs = h.srs;
      bands = h.bands;
      files = h.files;
    } };

    ghost invariant = { λ h. IsDatasetHead (record {
      name = h.name;
      kind = h.kind;
      size = h.size;
      geo = h.geo;
      srs = h.srs;
      bands = h.bands;
      files = h.files;
    }) };
}
