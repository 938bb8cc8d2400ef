// The names of what is made.
ghost use Rattle.std.specs.Prelude.{◌≡◌, ◌<◌, ◌≤◌, length, IsTrue, IfOk};
ghost use Rattle.outside.specs.Names.{extension_of, is_raw};
ghost use Rattle.outside.specs.Paths.{normal, longest_name};
ghost use Rattle.synthetic_rasters.specs.Names.{tile_name, tile_names, inner_name, outer_name, output_name};

use outside::{Name, Names};
use std::alloc::{AllocError, Global};

// The name that a text becomes, which is neither empty nor too long.
fn named(alloc: Global, text: &str) -> Result<Name, AllocError>
    requires some { 0 < length text.now }
    requires few { length text.now ≤ longest_name }
    ensures name { IfOk result (λ name. name ≡ normal text.now) }
{
    match Name::read(alloc, text) {
        Ok(name) => Ok(name),
        Err(_) => Err(AllocError),
    }
}

// The text of a tile's name.
fn tile_text(tile: u32) -> &'static str
    requires tile { tile < 4 }
    ensures text { result.now ≡ tile_name tile }
{
    match tile {
        0 => "synth_t0.bil",
        1 => "synth_t1.bil",
        2 => "synth_t2.bil",
        _ => "synth_t3.bil",
    }
}

/// The name of a tile's data, which is raw. Only memory is refused.
pub fn tile_name(alloc: Global, tile: u32) -> Result<Name, AllocError>
    requires tile { tile < 4 }
    ensures name { IfOk result (λ name. name ≡ tile_name tile) }
    ensures raw { IfOk result (λ name. IsTrue (is_raw (extension_of name))) }
{
    named(alloc, tile_text(tile))
}

/// The names of the tiles, in order. Only memory is refused.
pub fn tile_names(alloc: Global) -> Result<Names, AllocError>
    ensures names { IfOk result (λ names. names ≡ tile_names) }
{
    let mut names = Names::new(alloc);
    for tile in 0..4 {
        names.push(tile_name(alloc, tile)?)?;
    }
    Ok(names)
}

/// The name of the mosaic of the tiles. Only memory is refused.
pub fn inner_name(alloc: Global) -> Result<Name, AllocError>
    ensures name { IfOk result (λ name. name ≡ inner_name) }
{
    named(alloc, "synth_inner.vrt")
}

/// The name of the outer mosaic. Only memory is refused.
pub fn outer_name(alloc: Global) -> Result<Name, AllocError>
    ensures name { IfOk result (λ name. name ≡ outer_name) }
{
    named(alloc, "synth_outer.vrt")
}

/// The name of the output. Only memory is refused.
pub fn output_name(alloc: Global) -> Result<Name, AllocError>
    ensures name { IfOk result (λ name. name ≡ output_name) }
{
    named(alloc, "synth_out.bil")
}
