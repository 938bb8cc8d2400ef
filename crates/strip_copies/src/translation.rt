// What is translated.
use catalog::Catalog;
use std::alloc::Global;
use translate_plan::Plan;

/// What is translated: a dataset of a catalog, by its number, and the plan of its output.
#[derive(Drop)]
pub struct Translation {
    pub alloc: Global,
    pub cat: Catalog,
    pub id: u32,
    pub plan: Plan,
}
