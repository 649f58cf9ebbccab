// Numbers and bytes in lent tables: a list copied into as many cells as there are, and the cells of a name, of a refusal, of a written text.
#![tactic(auto)]

ghost use Rattle.std.specs.Prelude.{◌≡◌};
ghost use Rattle.cells.specs.Cells.{filled, into, name_cells, number_cells, refusal_cells, written_cells};

use gate::Refusal;

// A list in the front of a table, as much of it as the table holds, and `filler` in the cells behind it.
fn copy_filled<T: Copy>(list: &[T], table: &mut [T], filler: T)
    ensures { table.new ≡ filled filler table.old list.now }
{
    let n = list.len().min(table.len());
    for i in 0..n {
        table[i] = list[i];
    }
    for i in n..table.len() {
        table[i] = filler;
    }
}

// As many numbers as the table holds, with zeros behind them.
pub fn copy_numbers(list: &[usize], answer: &mut [usize])
    ensures { answer.new ≡ into answer.old list.now }
{
    copy_filled(list, answer, 0);
}

// As many bytes as the buffer holds, with zeros behind them.
pub fn copy_bytes(list: &[u8], out: &mut [u8])
    ensures { out.new ≡ into out.old list.now }
{
    copy_filled(list, out, 0);
}

// The length of a name.
pub fn put_length(name: &[u8], answer: &mut [usize])
    ensures { answer.new ≡ into answer.old (name_cells name.now) }
{
    let cells = [name.len()];
    copy_numbers(&cells, answer);
}

// A refusal's number with its line, as an answer of its own.
pub fn put_number(r: Refusal, answer: &mut [usize])
    ensures { answer.new ≡ into answer.old (number_cells r) }
{
    let cells = [r.number as usize, r.line, r.length];
    copy_numbers(&cells, answer);
}

// A refusal as one of several answers: 0 tells it.
pub fn put_refused(r: Refusal, answer: &mut [usize])
    ensures { answer.new ≡ into answer.old (refusal_cells r) }
{
    let cells = [0, r.number as usize, r.line, r.length];
    copy_numbers(&cells, answer);
}

// What writing a text answers.
pub fn put_written(r: Result<usize, Refusal>, answer: &mut [usize])
    ensures { answer.new ≡ into answer.old (written_cells r) }
{
    match r {
        Err(x) => put_refused(x, answer),
        Ok(count) => {
            let cells = [1, count];
            copy_numbers(&cells, answer);
        }
    }
}
