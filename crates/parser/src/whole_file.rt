// A whole sheet file: questions 2 to 9, 15 and 16.
ghost use Rattle.std.specs.Prelude.{◌≡◌, ◌≤◌, length, replicate};
ghost use Rattle.automaton.specs.Automaton.{transition_sets};
ghost use Rattle.automaton.specs.Graph.{InRange};
ghost use Rattle.lent.specs.Lent.{ClearedLong};
ghost use Rattle.columns.specs.Pair.{word_and_pair};
ghost use Rattle.frame.specs.Phase.{first_phase};
ghost use Rattle.frame.specs.Answers.{first_answer, FirstFits};
ghost use Rattle.format.specs.Format.{sheet_word, most_sheet};
ghost use Rattle.superseding.specs.Superseding.{superseding_in};
ghost use Rattle.name_lines.specs.NameLines.{Named};
ghost use Rattle.withdrawal_lines.specs.WithdrawalLines.{Superseded};
ghost use Rattle.parser.specs.Parse.{edition_of, sheet_bounds, parse, after_names, after_withdrawals};
ghost use Rattle.parser.specs.PhaseAnswers.{GraphRead, NumbersRead, FileRead};

use super::{MOST, Sizes};
use automaton::{Edition, Numbers};
use frame::{Bounds, Position, first_line};
use gate::Refusal;
use name_lines::read_names;
use state_lines::read_states;
use transition_lines::read_transitions;
use withdrawal_lines::read_withdrawals;

// The state lines and what follows, behind the withdrawal lines, whose superseding letters stand in rows. A refusal leaves the tables all zero.
fn read_graph(
    s: &[u8],
    z: Sizes,
    place: Position,
    rows: &[u8],
    table: &mut [u16],
    marks: &mut [u16],
) -> Result<Numbers, Refusal>
    requires { (length s.now ≤ most_sheet) × InRange z.n z.k × (place.line ≤ 17) × (place.at ≤ 308) × (224 ≤ length rows.now)
        × ClearedLong (transition_sets table.old marks.old) }
    ensures { (y : Named) (w : Superseded) → w.at ≡ place.at → w.line ≡ place.line → w.cells ≡ superseding_in rows.now
        → GraphRead (after_withdrawals s.now z y w) (transition_sets table.old marks.old)
        (transition_sets table.new marks.new) result }
{
    let n = z.n;
    let k = z.k;
    let edition = z.edition;
    let q = read_states(edition, s, place.line, place.at, n)?;
    read_transitions(edition, s, rows, n, k, q.line, q.at, table, marks)?;
    Ok(Numbers {
        edition,
        n,
        k,
        initial: q.initial,
        recurring: q.recurring,
    })
}

// The withdrawal lines and what follows, behind the name lines. A refusal leaves the tables all zero, and the rows to the caller.
fn read_numbers(
    s: &[u8],
    z: Sizes,
    place: Position,
    rows: &mut [u8],
    table: &mut [u16],
    marks: &mut [u16],
) -> Result<Numbers, Refusal>
    requires { (length s.now ≤ most_sheet) × InRange z.n z.k × (place.line ≤ 10) × (place.at ≤ 252) × (224 ≤ length rows.old)
        × (superseding_in rows.old ≡ replicate 8 0) × ClearedLong (transition_sets table.old marks.old) }
    ensures { (y : Named) → y.at ≡ place.at → y.line ≡ place.line
        → NumbersRead (after_names s.now z y) (transition_sets table.old marks.old)
        (transition_sets table.new marks.new) rows.old rows.new result }
{
    let behind = read_withdrawals(s, z.k, place.line, place.at, rows)?;
    read_graph(s, z, behind, rows, table, marks)
}

// The edition that the first line names.
fn edition_of(s: &[u8]) -> Edition
    ensures { result ≡ edition_of s.now }
{
    if text::starts_at(s, 0, b"SHT-2") {
        return Edition::TransitionBased;
    }
    Edition::StateBased
}

// The first line, of an edition's form.
fn head_line(s: &[u8], edition: Edition) -> Result<(usize, usize), Refusal>
    ensures { (result ≡ first_answer (first_phase (word_and_pair s.now (sheet_word edition)) sheet_bounds (λ n k. (n, k)) 3 4))
        × FirstFits sheet_bounds result }
{
    let bounds = Bounds {
        least: 1,
        most: 16,
        low: 1,
        high: 8,
    };
    match edition {
        Edition::StateBased => first_line(s, b"SHEET", bounds, 3, 4),
        Edition::TransitionBased => first_line(s, b"SHT-2", bounds, 3, 4),
    }
}

// A sheet file: its numbers, its successor sets and its marks in tables that are all zero before, and in rows its composed names and its superseding
// letters, with zeros everywhere else. A refusal leaves all of them zero.
pub fn read_file(
    s: &[u8],
    table: &mut [u16],
    marks: &mut [u16],
    rows: &mut [u8],
) -> Result<Numbers, Refusal>
    requires { ClearedLong (transition_sets table.old marks.old) × (224 ≤ length rows.old) }
    ensures { FileRead (parse s.now) (transition_sets table.old marks.old)
        (transition_sets table.new marks.new) rows.old rows.new result }
{
    gate::clear_bytes(rows);
    if MOST < s.len() {
        return Err(Refusal {
            number: 2,
            line: 0,
            length: 0,
        });
    }
    let edition = edition_of(s);
    let (n, k) = head_line(s, edition)?;
    let place = read_names(s, k, rows)?;
    let z = Sizes { edition, n, k };
    match read_numbers(s, z, place, rows, table, marks) {
        Err(r) => {
            gate::clear_bytes(rows);
            Err(r)
        }
        Ok(a) => Ok(a),
    }
}
