// Tests of whole runs: words and files in memory, with what must be printed and told. A check of tests proves the
// crate that they stand in once more, so those of large crates have one of their own.
#![tactic(auto)]

#[cfg(test)]
mod beside;
#[cfg(test)]
mod build_faults;
#[cfg(test)]
mod builds;
#[cfg(test)]
mod cells;
#[cfg(test)]
mod document_faults;
#[cfg(test)]
mod documents;
#[cfg(test)]
mod ends;
#[cfg(test)]
mod fickle;
#[cfg(test)]
mod grids;
#[cfg(test)]
mod hostile;
#[cfg(test)]
mod mosaics;
#[cfg(test)]
mod points;
#[cfg(test)]
mod raw;
#[cfg(test)]
mod sharing;
#[cfg(test)]
mod stories;
#[cfg(test)]
mod synth;
#[cfg(test)]
mod translated_cells;
#[cfg(test)]
mod translation_faults;
#[cfg(test)]
mod translations;
#[cfg(test)]
mod trials;
#[cfg(test)]
mod wide;
#[cfg(test)]
mod worked;
