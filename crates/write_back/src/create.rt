// Targets of plans.
ghost use Rattle.std.specs.Prelude.{◌≡◌, ◌≢◌, ◌≤◌, [], Some, None, IsSome, IfOk};
ghost use Rattle.outside.specs.Causes.{HasCause};
ghost use Rattle.block_cache.specs.Entries.{pool_view};
ghost use Rattle.translate_plan.specs.declared.options.Driver.TheVariants.{AaiGrid, Dted, EHdr, Vrt};
ghost use Rattle.write_back.specs.declared.fault.TargetFault.{TargetFault};
ghost use Rattle.write_back.specs.View.{IsZero};
ghost use Rattle.write_back.specs.Files.{IsTarget};
ghost use Rattle.write_back.specs.Plans.{output_of, room_of, IsNamedFor};
ghost use Rattle.write_back.specs.Drafts.{IsNew};
ghost use Rattle.write_back.specs.Served.{IsLeftIn};
ghost use Rattle.band_blocks.specs.Blocks.{most_blocks};

use crate::TargetFault;
use crate::rows::GridForm;
use crate::target::Target;
use dted_records::{fit, write_head};
use outside::{Folder, Name};
use std::alloc::Global;
use translate_plan::{Driver, Plan};

impl<F: Folder> Target<F> {
    /// Drafts for the files that a plan writes under a name, whose extension is one of the plan's driver. All samples
    /// are 0. The pool is empty and holds 1 to 65,536 blocks; a grid has none, since its lines are added as they come.
    /// FolderFault comes where a call of the folder failed, Memory where memory was refused; no draft is left then.
    pub fn create(
        alloc: Global,
        folder: &mut F,
        plan: &Plan,
        name: &Name,
        capacity: u32,
    ) -> Result<Target<F>, TargetFault>
        requires some { 1 ≤ capacity }
        requires few { capacity ≤ most_blocks }
        requires files { plan.now.driver ≢ Vrt }
        requires extension { IsNamedFor plan.now name.now }
        ensures output { IfOk result (λ t. output_of plan.now ≡ Some t.output) }
        ensures name { IfOk result (λ t. t.name ≡ name.now) }
        ensures pool { IfOk result (λ t. t.pool ≡ pool_view [] (room_of t.output capacity)) }
        ensures lines { IfOk result (λ t. t.lines ≡ 0) }
        ensures fault { IfOk result (λ t. t.fault ≡ None) }
        ensures target { IfOk result (λ t. IsTarget (F.names folder.new) t) }
        ensures zeros { IfOk result (λ t. IsSome (F.names folder.old) → IsZero t) }
        ensures names { F.names folder.new ≡ F.names folder.old }
        ensures reads { F.read_calls folder.new ≡ F.read_calls folder.old }
        ensures calls { F.write_calls folder.new ≡ F.write_calls folder.old }
        ensures cause { HasCause TargetFault.FolderFault (F.faults folder.old) (F.faults folder.new) result }
    {
        Target::create_planned(alloc, folder, plan, name, capacity)
    }

    // Drafts for the files that a plan writes under a name.
    fn create_planned(
        alloc: Global,
        folder: &mut F,
        plan: &Plan,
        name: &Name,
        capacity: u32,
    ) -> Result<Target<F>, TargetFault>
        requires some { 1 ≤ capacity }
        requires few { capacity ≤ most_blocks }
        requires files { plan.now.driver ≢ Vrt }
        requires extension { IsNamedFor plan.now name.now }
        ensures output { IfOk result (λ t. output_of plan.now ≡ Some t.output) }
        ensures made { IfOk result (IsNew (F.names folder.old) (F.names folder.new) name.now capacity) }
        ensures kept { IsLeftIn F.Folder folder.old folder.new }
        ensures cause { HasCause TargetFault.FolderFault (F.faults folder.old) (F.faults folder.new) result }
    {
        plan.rules();
        match plan.driver {
            Driver::EHdr => {
                let head = plan.raw_head();
                Target::create_raw(alloc, folder, &head, name, capacity)
            }
            Driver::Dted { level } => {
                Target::create_level(alloc, folder, plan, level, name, capacity)
            }
            Driver::SrtmHgt => Target::create_tile(alloc, folder, plan.size.w, name, capacity),
            Driver::AaiGrid => {
                let form = GridForm {
                    size: plan.size,
                    geo: plan.geo,
                    nodata: plan.nodata(0),
                };
                Target::create_grid(alloc, folder, &form, name)
            }
            Driver::Vrt => unreachable!(),
        }
    }

    // A draft for the cell of this level that a plan's raster is.
    fn create_level(
        alloc: Global,
        folder: &mut F,
        plan: &Plan,
        level: u32,
        name: &Name,
        capacity: u32,
    ) -> Result<Target<F>, TargetFault>
        requires some { 1 ≤ capacity }
        requires few { capacity ≤ most_blocks }
        requires level { plan.now.driver ≡ Dted level }
        ensures output { IfOk result (λ t. output_of plan.now ≡ Some t.output) }
        ensures made { IfOk result (IsNew (F.names folder.old) (F.names folder.new) name.now capacity) }
        ensures kept { IsLeftIn F.Folder folder.old folder.new }
        ensures cause { HasCause TargetFault.FolderFault (F.faults folder.old) (F.faults folder.new) result }
    {
        plan.rules();
        let Some(geo) = &plan.geo else {
            unreachable!();
        };
        let Ok(head) = fit(plan.size, geo, level) else {
            unreachable!();
        };
        let mut front = Vec::new(alloc);
        write_head(&head, &mut front)?;
        Target::create_cell(alloc, folder, &head, front, name, capacity)
    }
}
