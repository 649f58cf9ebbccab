// The sections of a sheet file written into a buffer: the lines of its names, withdrawals, states and transitions, and how long they are.
#![tactic(auto)]

pub mod name_lines;
pub mod state_lines;
pub mod transition_lines;
pub mod withdrawal_lines;
