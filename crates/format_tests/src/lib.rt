// Tests of the formats' crates, by their public calls alone. A check of tests proves the crate that they stand in
// once more, so they have one of their own.
#![tactic(auto)]

#[cfg(test)]
mod cells;
#[cfg(test)]
mod grids;
#[cfg(test)]
mod headers;
#[cfg(test)]
mod items;
#[cfg(test)]
mod numbers;
#[cfg(test)]
mod points;
#[cfg(test)]
mod raw_samples;
#[cfg(test)]
mod reading_documents;
#[cfg(test)]
mod rows;
#[cfg(test)]
mod sources;
#[cfg(test)]
mod tables;
#[cfg(test)]
mod tiles;
#[cfg(test)]
mod writing_documents;
