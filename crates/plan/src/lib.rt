// The plan file, read into letters.
#![tactic(auto)]

pub mod whole_file;

// The most bytes that a plan may have.
pub const MOST: usize = 12288;

// How many letters a plan's lead-in and cycle have.
#[derive(Clone, Copy)]
pub struct PlanLengths {
    pub lead: usize,
    pub cycle: usize,
}
