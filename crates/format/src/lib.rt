// The format of a sheet file, and how many bytes its state and transition lines have.
#![tactic(auto)]

ghost use Rattle.std.specs.Prelude.{◌≡◌, ◌≤◌};
ghost use Rattle.format.specs.Format.{state_width, transition_width};

use automaton::Edition;

// The bytes of a state line.
pub fn state_width(edition: Edition) -> usize
    ensures { (result ≡ state_width edition) × (result ≤ 11) }
{
    match edition {
        Edition::StateBased => 11,
        Edition::TransitionBased => 8,
    }
}

// The bytes of a transition line.
pub fn transition_width(edition: Edition) -> usize
    ensures { (result ≡ transition_width edition) × (result ≤ 14) }
{
    match edition {
        Edition::StateBased => 11,
        Edition::TransitionBased => 14,
    }
}
