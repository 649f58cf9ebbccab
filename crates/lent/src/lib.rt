// The lent tables of the calls on a sheet: question 1, and the tables cleared.
#![tactic(auto)]

ghost use Rattle.std.specs.Prelude.{◌≡◌};
ghost use Rattle.gate.specs.Gate.{Decides};
ghost use Rattle.automaton.specs.Automaton.{transition_sets};
ghost use Rattle.lent.specs.Lent.{witness_tables, EnoughForSheet, cleared_witness, cleared_sets};

// Question 1 of a call that takes a sheet.
pub fn long_enough(table: &[u16], marks: &[u16], word: &[u16], one: &[u16], other: &[u16]) -> bool
    ensures { Decides result (EnoughForSheet (transition_sets table.now marks.now) (witness_tables word.now one.now other.now)) }
{
    if table.len() < 128 {
        return false;
    }
    if marks.len() < 128 {
        return false;
    }
    if word.len() < 136 {
        return false;
    }
    if one.len() < 137 {
        return false;
    }
    if other.len() < 137 {
        return false;
    }
    true
}

// The successor sets and the marks become zero.
pub fn clear_sets(table: &mut [u16], marks: &mut [u16])
    ensures { transition_sets table.new marks.new ≡ cleared_sets (transition_sets table.old marks.old) }
{
    gate::clear(table);
    gate::clear(marks);
}

// The witness becomes zero.
pub fn clear_witness(word: &mut [u16], one: &mut [u16], other: &mut [u16])
    ensures { witness_tables word.new one.new other.new ≡ cleared_witness (witness_tables word.old one.old other.old) }
{
    gate::clear(word);
    gate::clear(one);
    gate::clear(other);
}
