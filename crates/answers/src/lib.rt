// The answers of the public calls in numbers: each by its cells, in a lent table.
#![tactic(auto)]

ghost use Rattle.std.specs.Prelude.{◌≡◌, List, ℕ};
ghost use Rattle.automaton.specs.Automaton.{automaton};
ghost use Rattle.cells.specs.Cells.{into};
ghost use Rattle.answers.specs.Answer.{edition_cell, edition_numbered, as_numbers, checked_cells, read_cells, found_cells, built_cells, way_cells, answer_cell, outcome_cells};

use automaton::{Edition, Numbers};
use gate::Refusal;
use passes::{Answer, Verdict};
use tracker::Tracker;

// 1 for SHEET, 2 for SHT-2. No From: the numbers are those of the exported calls alone.
fn edition_cell(edition: Edition) -> usize
    ensures { result ≡ edition_cell edition }
{
    match edition {
        Edition::StateBased => 1,
        Edition::TransitionBased => 2,
    }
}

// The edition that a number names; no TryFrom, since every number names one there.
pub fn edition_of(number: usize) -> Edition
    ensures { result ≡ edition_numbered number }
{
    if number == 2 {
        return Edition::TransitionBased;
    }
    Edition::StateBased
}

// A sheet's numbers, from a call's plain ones.
pub fn numbers_of(edition: usize, n: usize, k: usize, initial: u16, recurring: u16) -> Numbers
    ensures { (table marks : List ℕ) → automaton result table marks
        ≡ as_numbers (edition_numbered edition) n k initial recurring table marks }
{
    Numbers {
        edition: edition_of(edition),
        n,
        k,
        initial,
        recurring,
    }
}

// What a check answers.
pub fn put_checked(r: Result<(), Refusal>, answer: &mut [usize])
    ensures { answer.new ≡ into answer.old (checked_cells r) }
{
    match r {
        Err(x) => cells::put_refused(x, answer),
        Ok(()) => {
            let cells = [1];
            cells::copy_numbers(&cells, answer);
        }
    }
}

// What reading a sheet answers.
pub fn put_read(r: Result<Numbers, Refusal>, answer: &mut [usize])
    ensures { answer.new ≡ into answer.old (read_cells r) }
{
    match r {
        Err(x) => cells::put_refused(x, answer),
        Ok(a) => {
            let edition = a.edition;
            let cells = [
                1,
                edition_cell(edition),
                a.n,
                a.k,
                a.initial as usize,
                a.recurring as usize,
            ];
            cells::copy_numbers(&cells, answer);
        }
    }
}

// What the search for a name answers.
pub fn put_found(r: Result<usize, Refusal>, answer: &mut [usize])
    ensures { answer.new ≡ into answer.old (found_cells r) }
{
    match r {
        Err(x) => cells::put_refused(x, answer),
        Ok(l) => {
            let cells = [1, l];
            cells::copy_numbers(&cells, answer);
        }
    }
}

// What building a tracker answers.
pub fn put_built(r: Result<Tracker, Refusal>, answer: &mut [usize])
    ensures { answer.new ≡ into answer.old (built_cells r) }
{
    match r {
        Err(x) => cells::put_refused(x, answer),
        Ok(x) => {
            let a = x.numbers;
            let edition = a.edition;
            let cells = [
                1,
                edition_cell(edition),
                a.n,
                a.k,
                a.initial as usize,
                a.recurring as usize,
                x.tuples,
            ];
            cells::copy_numbers(&cells, answer);
        }
    }
}

// What the question for the way to a tuple answers.
pub fn put_way(r: Result<Option<usize>, Refusal>, answer: &mut [usize])
    ensures { answer.new ≡ into answer.old (way_cells r) }
{
    match r {
        Err(x) => cells::put_refused(x, answer),
        Ok(None) => {
            let cells = [2];
            cells::copy_numbers(&cells, answer);
        }
        Ok(Some(size)) => {
            let cells = [1, size];
            cells::copy_numbers(&cells, answer);
        }
    }
}

// 1 for yes, 2 for no. No From, as above.
fn answer_cell(answer: Answer) -> usize
    ensures { result ≡ answer_cell answer }
{
    match answer {
        Answer::Yes => 1,
        Answer::No => 2,
    }
}

// What the verdict on a plan answers.
pub fn put_outcome(r: Result<Verdict, Refusal>, answer: &mut [usize])
    ensures { answer.new ≡ into answer.old (outcome_cells r) }
{
    match r {
        Err(x) => cells::put_refused(x, answer),
        Ok(z) => {
            let told = z.answer;
            let cells = [answer_cell(told), z.least as usize, z.passes];
            cells::copy_numbers(&cells, answer);
        }
    }
}
