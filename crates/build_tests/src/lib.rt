// Tests of `buildvrt`, by its public calls alone: which inputs are skipped, the grids of mosaics, the NODATA of their
// bands and sources, their limits, and their documents.
#![tactic(auto)]

#[cfg(test)]
mod asking;
#[cfg(test)]
mod cases;
#[cfg(test)]
mod counts;
#[cfg(test)]
mod documents;
#[cfg(test)]
mod grids;
#[cfg(test)]
mod inputs;
#[cfg(test)]
mod judging;
#[cfg(test)]
mod nodata;
