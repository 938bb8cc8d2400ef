// Tests of `translate_plan` and of the writing half of `dted_records`, by their public calls alone: the plans of
// translations and their refusals, the cells that rasters are, and the bytes of heads and records.
#![tactic(auto)]

#[cfg(test)]
mod asking;
#[cfg(test)]
mod bands;
#[cfg(test)]
mod cells;
#[cfg(test)]
mod documents;
#[cfg(test)]
mod headers;
#[cfg(test)]
mod numbers;
#[cfg(test)]
mod plans;
#[cfg(test)]
mod rasters;
#[cfg(test)]
mod records;
#[cfg(test)]
mod refusals;
#[cfg(test)]
mod sources;
#[cfg(test)]
mod windows;
