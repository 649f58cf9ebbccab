// The questions on a sheet as numbers that takes its names from a sheet file.
#![tactic(auto)]

ghost use Rattle.std.specs.Prelude.{◌≡◌, List, ◌≤◌, length};
ghost use Rattle.gate.specs.Gate.{Decides};
ghost use Rattle.automaton.specs.Automaton.{transition_sets, automaton};
ghost use Rattle.lent.specs.Lent.{witness_tables, EnoughForSheet, cleared_witness};
ghost use Rattle.superseding.specs.Superseding.{superseding_in};
ghost use Rattle.format.specs.Format.{Withdrawal};
ghost use Rattle.format.specs.Withdrawals.{TellWithdrawn};
ghost use Rattle.named_numbers.specs.InForce.{CellsInForce};
ghost use Rattle.named_numbers.specs.Ask.{ChecksNamed, Asks};

use automaton::Numbers;
use gate::Refusal;
use reading::read_long;

// Question 16: have the withdrawn letters no successors? Cell i is of letter i % 8, and the superseding letters are in rows.
fn in_force(table: &[u16], rows: &[u8]) -> bool
    requires { (128 ≤ length table.now) × (224 ≤ length rows.now) }
    ensures { Decides result (CellsInForce table.now (superseding_in rows.now)) }
{
    for i in 0..128 {
        if table[i] != 0 {
            if superseding::superseding(rows, i % 8) != 0 {
                return false;
            }
        }
    }
    true
}

// Questions 4, 7, 8, 16 and 10 on the numbers, in tables that are long enough and all zero.
fn ask_numbers(
    a: Numbers,
    table: &[u16],
    marks: &[u16],
    rows: &[u8],
    word: &mut [u16],
    one: &mut [u16],
    other: &mut [u16],
) -> Result<(), Refusal>
    requires { EnoughForSheet (transition_sets table.now marks.now) (witness_tables word.old one.old other.old)
        × (witness_tables word.old one.old other.old ≡ cleared_witness (witness_tables word.old one.old other.old)) × (224 ≤ length rows.now) }
    ensures { (ws : List Withdrawal) → TellWithdrawn ws (superseding_in rows.now)
        → ChecksNamed (automaton a table.now marks.now) ws (witness_tables word.old one.old other.old)
        (witness_tables word.new one.new other.new) result }
{
    if let Some(number) = automaton::first_no(a, table, marks) {
        return Err(Refusal {
            number,
            line: 0,
            length: 0,
        });
    }
    if !in_force(table, rows) {
        return Err(Refusal {
            number: 16,
            line: 0,
            length: 0,
        });
    }
    if let Some(length) = walks::ask(automaton::graph_of(a), table, word, one, other) {
        return Err(Refusal {
            number: 10,
            line: 0,
            length,
        });
    }
    Ok(())
}

// The questions behind 1 on a sheet as numbers with a sheet file for the names: that file's questions 2 to 10, a differing k (4), and the
// questions 4, 7, 8, 16 and 10 on the numbers. The file's letters go into rows.
pub fn ask(
    a: Numbers,
    table: &[u16],
    marks: &[u16],
    names: &[u8],
    rows: &mut [u8],
    word: &mut [u16],
    one: &mut [u16],
    other: &mut [u16],
) -> Result<(), Refusal>
    requires { EnoughForSheet (transition_sets table.now marks.now) (witness_tables word.old one.old other.old) × (224 ≤ length rows.old) }
    ensures { Asks (automaton a table.now marks.now) names.now rows.new
        (witness_tables word.old one.old other.old) (witness_tables word.new one.new other.new) result }
{
    let mut successors = [0u16; 128];
    let mut marked = [0u16; 128];
    let b = read_long(names, &mut successors, &mut marked, rows, word, one, other)?;
    if b.k != a.k {
        return Err(Refusal {
            number: 4,
            line: 0,
            length: 0,
        });
    }
    ask_numbers(a, table, marks, rows, word, one, other)
}
