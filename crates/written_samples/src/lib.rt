// What is put into a file's bytes is read there, and all else as before: laws for any crate that writes
// raster files.
#![tactic(auto)]

pub mod laws;

pub use laws::{
    bytes_stand_where_put, cell_records_are_read_again, encoded_runs_keep_what_is_between,
    first_rows_stay_in_a_grid, grid_rows_are_read_again, raw_pixels_are_read_again,
    raw_runs_are_read_again, raw_samples_stand_where_put, tile_rows_are_read_again,
};
