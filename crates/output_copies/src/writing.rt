// How an output is written.
use lane_teams::WorkerCount;
use outside::Name;

/// How an output is written: under which name, with how many blocks held at a time by each worker that reads and by
/// what is written, by how many workers, and whether nothing is told of the work.
#[derive(Clone, Copy)]
pub struct Writing<'a> {
    pub name: &'a Name,
    pub blocks: u32,
    pub workers: WorkerCount,
    pub quiet: bool,
}
