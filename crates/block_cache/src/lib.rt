// A pool of blocks that drops the least recently used.
#![tactic(auto)]

mod pool;

pub use pool::{Entry, Evicted, Pool};
