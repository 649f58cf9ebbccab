// The calls on letters: a letter's name, its companion number, the letter of a name, the successors of a set on a letter.
ghost use Rattle.lent.specs.Lent.{witness_tables};
ghost use Rattle.automaton.specs.Successors.{Successors};
ghost use Rattle.letters.specs.Letters.{NumberIs};
ghost use Rattle.letter_search.specs.Find.{Finds};
ghost use Rattle.cells.specs.Cells.{InNumbers, name_cells, number_cells};
ghost use Rattle.answers.specs.Answer.{NameCopied, found_cells};

// `letters::name`, its bytes copied
#[unsafe(no_mangle)]
pub extern "C" fn lunthomi_name(sheet: &[u8], letter: usize, out: &mut [u8], answer: &mut [usize])
    ensures { InNumbers (NameCopied sheet.now letter out.old out.new)
        name_cells answer.old answer.new }
{
    let name = letters::name(sheet, letter);
    cells::copy_bytes(name, out);
    cells::put_length(name, answer);
}

// `letters::name_number`
#[unsafe(no_mangle)]
pub extern "C" fn lunthomi_name_number(sheet: &[u8], letter: usize, answer: &mut [usize])
    ensures { InNumbers (NumberIs sheet.now letter)
        number_cells answer.old answer.new }
{
    let r = letters::name_number(sheet, letter);
    cells::put_number(r, answer);
}

// `letter_search::find`
#[unsafe(no_mangle)]
pub extern "C" fn lunthomi_find(
    sheet: &[u8],
    name: &[u8],
    word: &mut [u16],
    one: &mut [u16],
    other: &mut [u16],
    answer: &mut [usize],
)
    ensures { InNumbers (Finds sheet.now name.now
        (witness_tables word.old one.old other.old) (witness_tables word.new one.new other.new))
        found_cells answer.old answer.new }
{
    let r = letter_search::find(sheet, name, word, one, other);
    answers::put_found(r, answer);
}

// `automaton::successors`
#[unsafe(no_mangle)]
pub extern "C" fn lunthomi_successors(table: &[u16], letter: usize, set: u16) -> u16
    ensures { Successors table.now letter set result }
{
    automaton::successors(table, letter, set)
}
