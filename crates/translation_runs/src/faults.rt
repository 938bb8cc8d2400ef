// Faults of plans, as those of a run.
ghost use Rattle.std.specs.Prelude.{◌≡◌};
ghost use Rattle.translation_runs.specs.Judged.{by_plan};

use error_lines::Fault;
use geotransform::PlanFault;

/// What is planned, as the run's answer.
pub fn by_plan<T>(planned: Result<T, PlanFault>) -> Result<T, Fault>
    ensures { result ≡ by_plan planned }
{
    match planned {
        Ok(plan) => Ok(plan),
        Err(fault) => Err(Fault::Plan(fault)),
    }
}
