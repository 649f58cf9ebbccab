// The text of a sheet file: how long it is, and its lines written one behind the other.
#![tactic(auto)]

ghost use Rattle.std.specs.Prelude.{◌≡◌, ℕ, ◌≤◌, List, length};
ghost use Rattle.std.proofs.lemmas.List.Edits.{sets};
ghost use Rattle.automaton.specs.Automaton.{automaton};
ghost use Rattle.sheet_text.specs.Text.{rows_text, Writable};

use automaton::Numbers;
use sheet_sections::name_lines::{names_length, put_names};
use sheet_sections::state_lines::put_states;
use sheet_sections::transition_lines::{count_transitions, put_transitions};
use sheet_sections::withdrawal_lines::{put_withdrawals, withdrawals_length};

// How many bytes the text of a sheet has.
pub fn text_length(a: Numbers, table: &[u16], rows: &[u8]) -> usize
    requires { (a.n ≤ 16) × (a.k ≤ 8) × (128 ≤ length table.now) × (224 ≤ length rows.now) }
    ensures { (marks : List ℕ) → result ≡ length (rows_text (automaton a table.now marks) rows.now) }
{
    let edition = a.edition;
    16 + names_length(rows, a.k)
        + withdrawals_length(rows, a.k)
        + format::state_width(edition) * a.n
        + format::transition_width(edition) * count_transitions(table)
}

// The text of a sheet.
pub fn put_text(a: Numbers, table: &[u16], marks: &[u16], rows: &[u8], out: &mut [u8])
    requires { Writable (automaton a table.now marks.now) × (224 ≤ length rows.now) × (length (rows_text (automaton a table.now marks.now) rows.now) ≤ length out.old) }
    ensures { out.new ≡ sets out.old 0 (rows_text (automaton a table.now marks.now) rows.now) }
{
    let edition = a.edition;
    sheet_lines::put_head(out, 0, edition, a.n, a.k);
    let withdrawals = put_names(out, 12, rows, a.k);
    let states = put_withdrawals(out, withdrawals, rows, a.k);
    let transitions = put_states(out, states, edition, a.n, a.initial, a.recurring);
    let end = put_transitions(out, transitions, edition, table, marks);
    text::put_bytes(out, end, b"END\n");
}
