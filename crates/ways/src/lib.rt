// The way back from a tuple, followed through a tracker's table: the word that it spells.
#![tactic(auto)]

ghost use Rattle.std.specs.Prelude.{◌≡◌, ◌<◌, ◌≤◌, length};
ghost use Rattle.tuple_record.specs.Record.{from_in};
ghost use Rattle.ways.specs.Way.{Spelled};
ghost use Rattle.ways.specs.Spell.{LeadsDown, DepthIs, Spelling};

// The tuple that a tuple was first found from.
fn from(tuples: &[u16], count: usize, t: usize) -> usize
    requires { LeadsDown tuples.now count × (t < count) }
    ensures { result ≡ from_in tuples.now t }
{
    tuples[tuple_record::RECORD * t + tuple_record::FROM] as usize
}

// How many steps lead back from tuple t to tuple 0.
fn depth(tuples: &[u16], count: usize, t: usize) -> usize
    requires { LeadsDown tuples.now count × (t < count) }
    ensures { DepthIs tuples.now count t result }
{
    let mut at = t;
    let mut d: usize = 0;
    // A while: how long the way is, is the question.
    while 0 < at {
        at = from(tuples, count, at);
        d += 1;
    }
    d
}

// The letters on the way of d steps back from tuple t, from the last to the first.
fn put_letters(tuples: &[u16], count: usize, t: usize, d: usize, letters: &mut [u16])
    requires { Spelling tuples.now count t d letters.old }
    ensures { Spelled tuples.now count t letters.old letters.new d }
{
    let mut at = t;
    for left in (0..d).rev() {
        letters[left] = tuples[tuple_record::RECORD * at + tuple_record::LETTER];
        at = from(tuples, count, at);
    }
}

// The word that leads to tuple t, in letters with any contents, and how long it is.
pub fn spell(tuples: &[u16], count: usize, t: usize, letters: &mut [u16]) -> usize
    requires { LeadsDown tuples.now count × (t < count) × (count ≤ length letters.old) }
    ensures { Spelled tuples.now count t letters.old letters.new result }
{
    gate::clear(letters);
    let d = depth(tuples, count, t);
    put_letters(tuples, count, t, d, letters);
    d
}
