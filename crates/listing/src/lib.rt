// The listing of a tracker from numbers.
#![tactic(auto)]

ghost use Rattle.automaton.specs.Automaton.{automaton};
ghost use Rattle.lent.specs.Lent.{witness_tables};
ghost use Rattle.filling.specs.TrackerTables.{tracker_tables};
ghost use Rattle.tracker.specs.Build.{build_numbers_tables};
ghost use Rattle.listing_text.specs.Listing.{listing};
ghost use Rattle.listing.specs.List.{list_numbers_tables, ListsNumbers};
ghost use Rattle.listing_lines.specs.PutLine.{Sized};
ghost use Rattle.listing.specs.Finish.{Finishes};

use automaton::Numbers;
use gate::Refusal;

// The last question, whether the buffer is long enough, and the listing with zeros behind it.
pub fn finish(
    n: usize,
    k: usize,
    count: usize,
    tuples: &mut [u16],
    nexts: &mut [u16],
    out: &mut [u8],
) -> Result<usize, Refusal>
    requires { Sized n k count tuples.old nexts.old }
    ensures { Finishes (listing n k count tuples.old nexts.old)
        (tracker_tables tuples.old nexts.old) (tracker_tables tuples.new nexts.new) out.old out.new result }
{
    let bytes = listing_text::listing_length(n, k, count);
    if out.len() < bytes {
        filling::clear(tuples, nexts);
        gate::clear_bytes(out);
        return Err(Refusal {
            number: 1,
            line: 0,
            length: 0,
        });
    }
    listing_text::write(out, n, k, count, tuples, nexts);
    Ok(bytes)
}

// The listing of the tracker of a sheet as numbers.
pub fn list_numbers(
    a: Numbers,
    table: &[u16],
    marks: &[u16],
    room: usize,
    tuples: &mut [u16],
    nexts: &mut [u16],
    word: &mut [u16],
    one: &mut [u16],
    other: &mut [u16],
    out: &mut [u8],
) -> Result<usize, Refusal>
    ensures { ListsNumbers (automaton a table.now marks.now) room
        (list_numbers_tables (build_numbers_tables (witness_tables word.old one.old other.old) (tracker_tables tuples.old nexts.old))
        out.old)
        (list_numbers_tables (build_numbers_tables (witness_tables word.new one.new other.new) (tracker_tables tuples.new nexts.new))
        out.new) result }
{
    match tracker::build_numbers(a, table, marks, room, tuples, nexts, word, one, other) {
        Err(r) => gate::refuse(r, out),
        Ok(x) => finish(x.numbers.n, x.numbers.k, x.tuples, tuples, nexts, out),
    }
}
