// The mosaic of inputs that were walked.
ghost use Rattle.std.specs.Prelude.{◌≡◌, ◌≤◌, ℕ, List, length, IfOk, IfErr};
ghost use Rattle.std.specs.List.{All};
ghost use Rattle.lists_and_answers.specs.Answers.{Gives};
ghost use Rattle.buildvrt.specs.Judging.{IsOneOf};
ghost use Rattle.buildvrt.specs.Mosaic.{mosaic_of};
ghost use Rattle.error_lines.specs.Faults.{by_build};
ghost use Rattle.mosaic_builds.specs.Ends.{IsOfBuilding};
ghost use Rattle.mosaic_builds.specs.Walks.{heads_at, AreKnown};
ghost use Rattle.catalog.specs.Dataset.{most_datasets};

use buildvrt::{BuildOptions, Input, SkipList, mosaic_of_inputs};
use catalog::Catalog;
use error_lines::Fault;
use lists_and_answers::Items;
use std::alloc::{AllocError, Global};
use vrt_profile::Document;

// The datasets of these numbers as inputs. Their heads are lent.
fn inputs_at<'a>(
    alloc: Global,
    cat: &'a Catalog,
    ids: &[u32],
) -> Result<Items<Input<'a>>, AllocError>
    requires known { AreKnown cat.now ids.now }
    ensures inputs { IfOk result (λ inputs. inputs ≡ heads_at cat.now ids.now) }
{
    let mut inputs = Items::new(alloc);
    for id in ids {
        inputs.push(Input {
            head: cat.head(*id),
        })?;
    }
    Ok(inputs)
}

/// The document of a mosaic of the datasets of these numbers, and the inputs that are skipped, counted in order from 0.
///
/// Build comes exactly with the refusal of the mosaic, Memory freely.
pub fn mosaic_of_walked(
    alloc: Global,
    cat: &Catalog,
    ids: &[u32],
    options: &BuildOptions,
) -> Result<(Document, SkipList), Fault>
    requires known { AreKnown cat.now ids.now }
    requires few { length ids.now ≤ most_datasets }
    ensures mosaic { Gives (λ f. f ≡ Fault.Memory) (λ made. made) result
        (by_build (mosaic_of options.now (heads_at cat.now ids.now))) }
    ensures within { IfOk result (λ made. All (IsOneOf (length ids.now)) made.1) }
    ensures faults { (out : List ℕ) → IfErr result (IsOfBuilding out) }
{
    let inputs = match inputs_at(alloc, cat, ids) {
        Ok(inputs) => inputs,
        Err(AllocError) => return Err(Fault::Memory),
    };
    match mosaic_of_inputs(alloc, inputs.as_slice(), options) {
        Ok(made) => Ok(made),
        Err(fault) => Err(Fault::from(fault)),
    }
}
