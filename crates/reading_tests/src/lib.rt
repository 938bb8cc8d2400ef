// Tests of `outside`, of `catalog` and of what reads blocks and windows, by their public calls alone: names, folders
// and streams, heads and walks, blocks with their loads, the pool and lanes. A check of tests proves the crate that
// they stand in once more, so they have one of their own.
#![tactic(auto)]

#[cfg(test)]
mod blocks;
#[cfg(test)]
mod calls;
#[cfg(test)]
mod depths;
#[cfg(test)]
mod disk;
#[cfg(test)]
mod fakes;
#[cfg(test)]
mod fixtures;
#[cfg(test)]
mod folders;
#[cfg(test)]
mod heads;
#[cfg(test)]
mod indexes;
#[cfg(test)]
mod loads;
#[cfg(test)]
mod names;
#[cfg(test)]
mod nested;
#[cfg(test)]
mod paths;
#[cfg(test)]
mod pools;
#[cfg(test)]
mod reads;
#[cfg(test)]
mod sharing;
#[cfg(test)]
mod short_calls;
#[cfg(test)]
mod walks;
#[cfg(test)]
mod wide;
#[cfg(test)]
mod windows;
