// The lines of a sheet file, read from the top: questions 2 to 9, 15 and 16.
#![tactic(auto)]

pub mod whole_file;

use automaton::Edition;

// The most bytes that a sheet may have.
pub const MOST: usize = 32768;

// The first line of a sheet: its edition, n and k.
#[derive(Clone, Copy)]
pub struct Sizes {
    pub edition: Edition,
    pub n: usize,
    pub k: usize,
}
