// The calls on a sheet and its letters, and the programs' functions, for callers in other languages, under the prefix `lunthomi_`: numbers and
// slices of numbers go in, and what the call answers goes into a lent table, `answer`. The calls with a tracker's tables are in `tracker_exports`.
#![tactic(auto)]

pub mod alphabet;
pub mod programs;
pub mod sheets;
