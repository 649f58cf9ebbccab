// The walk check: question 10, and the whole check of a sheet that is handed over as numbers.
#![tactic(auto)]

ghost use Rattle.std.specs.Prelude.{◌≡◌};
ghost use Rattle.automaton.specs.Automaton.{transition_sets, automaton};
ghost use Rattle.automaton.specs.Graph.{graph};
ghost use Rattle.lent.specs.Lent.{witness_tables, EnoughForSheet, cleared_witness};
ghost use Rattle.meeting.specs.Answer.{Asked};
ghost use Rattle.walks.specs.Check.{Checks, ChecksLong, AnsweredTen};

use automaton::{GraphNumbers, Numbers};
use gate::Refusal;

// Question 10, for callers that have asked the questions before it and cleared the tables: the length of a shortest word with walks that meet
// at a state that begins an endless path, if there are any, with the word and two such walks in the tables.
pub fn ask(
    g: GraphNumbers,
    table: &[u16],
    word: &mut [u16],
    one: &mut [u16],
    other: &mut [u16],
) -> Option<usize>
    requires { Asked (graph g table.now) (witness_tables word.old one.old other.old) }
    ensures { AnsweredTen (graph g table.now) (witness_tables word.old one.old other.old)
        (witness_tables word.new one.new other.new) result }
{
    let counts = endless::states(g, table);
    meeting::search(g, table, counts, word, one, other)
}

// Questions 4, 7, 8 and 10, in tables that are long enough and all zero.
fn check_cleared(
    a: Numbers,
    table: &[u16],
    marks: &[u16],
    word: &mut [u16],
    one: &mut [u16],
    other: &mut [u16],
) -> Result<(), Refusal>
    requires { EnoughForSheet (transition_sets table.now marks.now) (witness_tables word.old one.old other.old)
        × (witness_tables word.old one.old other.old ≡ cleared_witness (witness_tables word.old one.old other.old)) }
    ensures { ChecksLong (automaton a table.now marks.now) (witness_tables word.old one.old other.old)
        (witness_tables word.new one.new other.new) result }
{
    if let Some(number) = automaton::first_no(a, table, marks) {
        return Err(Refusal {
            number,
            line: 0,
            length: 0,
        });
    }
    if let Some(length) = ask(automaton::graph_of(a), table, word, one, other) {
        return Err(Refusal {
            number: 10,
            line: 0,
            length,
        });
    }
    Ok(())
}

// Questions 4, 7, 8 and 10 on a sheet as numbers, in tables that are long enough.
pub fn check_long(
    a: Numbers,
    table: &[u16],
    marks: &[u16],
    word: &mut [u16],
    one: &mut [u16],
    other: &mut [u16],
) -> Result<(), Refusal>
    requires { EnoughForSheet (transition_sets table.now marks.now) (witness_tables word.old one.old other.old) }
    ensures { ChecksLong (automaton a table.now marks.now) (witness_tables word.old one.old other.old)
        (witness_tables word.new one.new other.new) result }
{
    lent::clear_witness(word, one, other);
    check_cleared(a, table, marks, word, one, other)
}

// Questions 1, 4, 7, 8 and 10 on a sheet as numbers, with line 0. Question 1 touches nothing; with 10 the tables hold
// a shortest word with meeting walks, with zeros behind, and with every other answer they are all zero.
pub fn check(
    a: Numbers,
    table: &[u16],
    marks: &[u16],
    word: &mut [u16],
    one: &mut [u16],
    other: &mut [u16],
) -> Result<(), Refusal>
    ensures { Checks (automaton a table.now marks.now)
        (witness_tables word.old one.old other.old) (witness_tables word.new one.new other.new) result }
{
    if !lent::long_enough(table, marks, word, one, other) {
        return Err(Refusal {
            number: 1,
            line: 0,
            length: 0,
        });
    }
    check_long(a, table, marks, word, one, other)
}
