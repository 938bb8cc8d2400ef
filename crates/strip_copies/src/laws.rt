// What holds of every plan of a dataset.
ghost use Rattle.std.specs.Prelude.{◌≡◌, ℕ, List, Ok, Some, slice_get};
ghost use Rattle.catalog.specs.Drivers.{Dataset};
ghost use Rattle.translate_plan.specs.Options.{Options, IsOptions};
ghost use Rattle.translate_plan.specs.Plan.{Planned, plan_of};
ghost use Rattle.strip_copies.specs.Copies.{IsTranslation};

/// A plan of a dataset's head shows bands that the dataset has.
pub fn plans_are_translations()
    ensures translation { (cat : List Dataset) (id : ℕ) (d : Dataset) (o : Options) (p : Planned) →
        slice_get cat id ≡ Some d → IsOptions o → plan_of o d.head ≡ Ok p → IsTranslation cat id p }
{}
