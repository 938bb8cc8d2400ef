// The document of a mosaic.
ghost use Rattle.std.specs.Prelude.{◌≡◌, ◌<◌, ◌≤◌, true, length, IfOk, Ok};
ghost use Rattle.lists_and_answers.specs.Answers.{Gives};
ghost use Rattle.buildvrt.specs.Judging.{has_bands, judged_of};
ghost use Rattle.buildvrt.specs.Mosaic.{IsMemory, document_on, document_by, mosaic_by, mosaic_of};
ghost use Rattle.buildvrt.specs.Limits.{HasReference};
ghost use Rattle.catalog.specs.Dataset.{most_datasets};

use crate::bands::bands_of;
use crate::faults::{BuildFault, SkipList};
use crate::grid::{Grid, grid_of};
use crate::judging::{Judged, judge, strictly};
use crate::options::BuildOptions;
use crate::patch::patches_of;
use crate::tile::{Input, Tile};
use catalog::Head;
use lists_and_answers::Items;
use std::alloc::{AllocError, Global};
use vrt_profile::Document;

// The document on a grid.
#[tactic(auto, using(crate::proofs::Made::refused_patches, crate::proofs::Made::refused_bands, crate::proofs::Made::made, crate::proofs::Made::patches_some))]
fn document_on(
    alloc: Global,
    options: &BuildOptions,
    reference: &Head,
    grid: &Grid,
    tiles: &[Tile],
) -> Result<Document, BuildFault>
    requires has { has_bands reference.now options.now.bands ≡ true }
    requires some { 0 < length tiles.now }
    requires few { length tiles.now ≤ most_datasets }
    ensures document { Gives IsMemory (λ d. d) result (document_on options.now reference.now grid.now tiles.now) }
{
    let patches = match patches_of(alloc, grid, tiles) {
        Ok(patches) => patches,
        Err(fault) => return Err(fault),
    };
    let bands = match bands_of(alloc, options, reference, patches.as_slice()) {
        Ok(bands) => bands,
        Err(fault) => return Err(fault),
    };
    Ok(bands.into_document(grid.size, &reference.srs, Some(grid.geo))?)
}

// The document of the inputs that stay.
#[tactic(auto, unfolding(crate::specs::Mosaic::document_by))]
fn document_by(
    alloc: Global,
    options: &BuildOptions,
    tiles: &[Tile],
) -> Result<Document, BuildFault>
    requires has { HasReference options.now tiles.now }
    requires few { length tiles.now ≤ most_datasets }
    ensures document { Gives IsMemory (λ d. d) result (document_by options.now tiles.now) }
{
    let Some(reference) = tiles.first() else {
        return Err(BuildFault::Nothing);
    };
    match grid_of(options, tiles) {
        None => Err(BuildFault::Limit),
        Some(grid) => {
            let head = reference.head;
            document_on(alloc, options, head, &grid, tiles)
        }
    }
}

// The document of the inputs as they were judged.
fn document_of(
    alloc: Global,
    options: &BuildOptions,
    heads: &[Input],
    judged: &Judged,
) -> Result<Document, BuildFault>
    requires few { length heads.now ≤ most_datasets }
    requires judged { judged.now ≡ judged_of options.now heads.now }
    ensures document { Gives IsMemory (λ d. d) result (document_by options.now judged.now.tiles) }
{
    document_by(alloc, options, judged.tiles.as_slice())
}

// The document and the skipped inputs, of the inputs as they were judged.
#[tactic(auto, using(crate::proofs::Made::refused_strictly, crate::proofs::Made::refused_document, crate::proofs::Made::mosaic_made))]
fn mosaic_by(
    alloc: Global,
    options: &BuildOptions,
    heads: &[Input],
    judged: Judged,
) -> Result<(Document, SkipList), BuildFault>
    requires few { length heads.now ≤ most_datasets }
    requires judged { judged ≡ judged_of options.now heads.now }
    ensures mosaic { Gives IsMemory (λ x. x) result (mosaic_by options.now heads.now judged.entry) }
{
    match strictly(options, heads, &judged) {
        Err(fault) => Err(fault),
        Ok(()) => match document_of(alloc, options, heads, &judged) {
            Err(fault) => Err(fault),
            Ok(document) => Ok((document, judged.skipped)),
        },
    }
}

/// The document of a mosaic of these inputs and the inputs that are skipped, in order, or the first
/// refusal: `Strict` for the first skipped input where none may be skipped, `Nothing` where none is
/// left, `Limit` where the mosaic is too large; and `Memory` where memory is refused.
pub fn mosaic_of_inputs(
    alloc: Global,
    inputs: &[Input],
    options: &BuildOptions,
) -> Result<(Document, SkipList), BuildFault>
    requires few { length inputs.now ≤ most_datasets }
    ensures mosaic { Gives IsMemory (λ x. x) result (mosaic_of options.now inputs.now) }
{
    let judged = judge(alloc, options, inputs)?;
    mosaic_by(alloc, options, inputs, judged)
}

// The heads as inputs.
fn inputs_of<'a>(alloc: Global, heads: &'a [Head]) -> Result<Items<Input<'a>>, AllocError>
    ensures inputs { IfOk result (λ l. l ≡ heads.now) }
{
    let mut inputs = Items::new(alloc);
    for head in heads {
        inputs.push(Input { head })?;
    }
    Ok(inputs)
}

/// The same of heads that stand in a row.
pub fn mosaic(
    alloc: Global,
    heads: &[Head],
    options: &BuildOptions,
) -> Result<(Document, SkipList), BuildFault>
    requires few { length heads.now ≤ most_datasets }
    ensures mosaic { Gives IsMemory (λ x. x) result (mosaic_of options.now heads.now) }
{
    let inputs = inputs_of(alloc, heads)?;
    mosaic_of_inputs(alloc, inputs.as_slice(), options)
}
