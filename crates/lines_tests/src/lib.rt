// Tests of what lanes share, and of lanes beside each other: which of the blocks that were offered to lines are shown,
// and that the lanes of a team don't read in turn.
#![tactic(auto)]

#[cfg(test)]
mod lines;
#[cfg(test)]
mod teams;
