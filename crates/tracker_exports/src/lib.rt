// The calls with a tracker's tables for callers in other languages: built, listed, the way to a tuple, and the verdict. As in `exports`, numbers and slices of numbers
// go in, and what the call answers goes into a lent table, `answer`.
#![tactic(auto)]

pub mod trackers;
pub mod verdicts;
