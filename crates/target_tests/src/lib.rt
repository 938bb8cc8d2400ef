// Tests of `write_back`, by its public calls alone: windows through pools of each capacity, blocks past them, the files
// that are published, and calls of the folder that fail.
#![tactic(auto)]

#[cfg(test)]
mod bounds;
#[cfg(test)]
mod cells;
#[cfg(test)]
mod failing;
#[cfg(test)]
mod fixtures;
#[cfg(test)]
mod grids;
#[cfg(test)]
mod outputs;
#[cfg(test)]
mod packed;
#[cfg(test)]
mod pixels;
#[cfg(test)]
mod raw;
#[cfg(test)]
mod texts;
#[cfg(test)]
mod tiles;
