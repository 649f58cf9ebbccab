// The calls that build a tracker, list it, and tell the way to a tuple.
ghost use Rattle.automaton.specs.Automaton.{transition_sets};
ghost use Rattle.lent.specs.Lent.{witness_tables};
ghost use Rattle.filling.specs.TrackerTables.{tracker_tables};
ghost use Rattle.tracker.specs.Build.{build_numbers_tables, build_tables, BuildsNumbers};
ghost use Rattle.building.specs.FileBuild.{Builds};
ghost use Rattle.file_way.specs.FileWay.{way_tables, ShowsWay};
ghost use Rattle.listing.specs.List.{list_numbers_tables, ListsNumbers};
ghost use Rattle.file_listing.specs.FileList.{list_tables, Lists};
ghost use Rattle.cells.specs.Cells.{InNumbers, written_cells};
ghost use Rattle.answers.specs.Answer.{edition_numbered, as_numbers, built_cells, way_cells};

// `file_tracker::build`
#[unsafe(no_mangle)]
pub extern "C" fn lunthomi_build(
    sheet: &[u8],
    room: usize,
    table: &mut [u16],
    marks: &mut [u16],
    tuples: &mut [u16],
    nexts: &mut [u16],
    word: &mut [u16],
    one: &mut [u16],
    other: &mut [u16],
    answer: &mut [usize],
)
    ensures { InNumbers (Builds sheet.now room
        (build_tables (transition_sets table.old marks.old) (witness_tables word.old one.old other.old) (tracker_tables tuples.old nexts.old))
        (build_tables (transition_sets table.new marks.new) (witness_tables word.new one.new other.new) (tracker_tables tuples.new nexts.new)))
        built_cells answer.old answer.new }
{
    let r = file_tracker::build(sheet, room, table, marks, tuples, nexts, word, one, other);
    answers::put_built(r, answer);
}

// `tracker::build_numbers`
#[unsafe(no_mangle)]
pub extern "C" fn lunthomi_build_numbers(
    edition: usize,
    n: usize,
    k: usize,
    initial: u16,
    recurring: u16,
    table: &[u16],
    marks: &[u16],
    room: usize,
    tuples: &mut [u16],
    nexts: &mut [u16],
    word: &mut [u16],
    one: &mut [u16],
    other: &mut [u16],
    answer: &mut [usize],
)
    ensures { InNumbers (BuildsNumbers (as_numbers (edition_numbered edition) n k initial recurring table.now marks.now) room
        (build_numbers_tables (witness_tables word.old one.old other.old) (tracker_tables tuples.old nexts.old))
        (build_numbers_tables (witness_tables word.new one.new other.new) (tracker_tables tuples.new nexts.new)))
        built_cells answer.old answer.new }
{
    let a = answers::numbers_of(edition, n, k, initial, recurring);
    let r = tracker::build_numbers(a, table, marks, room, tuples, nexts, word, one, other);
    answers::put_built(r, answer);
}

// `file_way::way_to`
#[unsafe(no_mangle)]
pub extern "C" fn lunthomi_way(
    sheet: &[u8],
    room: usize,
    t: usize,
    table: &mut [u16],
    marks: &mut [u16],
    tuples: &mut [u16],
    nexts: &mut [u16],
    word: &mut [u16],
    one: &mut [u16],
    other: &mut [u16],
    letters: &mut [u16],
    answer: &mut [usize],
)
    ensures { InNumbers (ShowsWay sheet.now room t
        (way_tables (build_tables (transition_sets table.old marks.old) (witness_tables word.old one.old other.old)
        (tracker_tables tuples.old nexts.old)) letters.old)
        (way_tables (build_tables (transition_sets table.new marks.new) (witness_tables word.new one.new other.new)
        (tracker_tables tuples.new nexts.new)) letters.new))
        way_cells answer.old answer.new }
{
    let r = file_way::way_to(
        sheet, room, t, table, marks, tuples, nexts, word, one, other, letters,
    );
    answers::put_way(r, answer);
}

// `file_listing::list`
#[unsafe(no_mangle)]
pub extern "C" fn lunthomi_list(
    sheet: &[u8],
    room: usize,
    table: &mut [u16],
    marks: &mut [u16],
    tuples: &mut [u16],
    nexts: &mut [u16],
    word: &mut [u16],
    one: &mut [u16],
    other: &mut [u16],
    out: &mut [u8],
    answer: &mut [usize],
)
    ensures { InNumbers (Lists sheet.now room
        (list_tables (build_tables (transition_sets table.old marks.old) (witness_tables word.old one.old other.old)
        (tracker_tables tuples.old nexts.old)) out.old)
        (list_tables (build_tables (transition_sets table.new marks.new) (witness_tables word.new one.new other.new)
        (tracker_tables tuples.new nexts.new)) out.new))
        written_cells answer.old answer.new }
{
    let r = file_listing::list(
        sheet, room, table, marks, tuples, nexts, word, one, other, out,
    );
    cells::put_written(r, answer);
}

// `listing::list_numbers`
#[unsafe(no_mangle)]
pub extern "C" fn lunthomi_list_numbers(
    edition: usize,
    n: usize,
    k: usize,
    initial: u16,
    recurring: u16,
    table: &[u16],
    marks: &[u16],
    room: usize,
    tuples: &mut [u16],
    nexts: &mut [u16],
    word: &mut [u16],
    one: &mut [u16],
    other: &mut [u16],
    out: &mut [u8],
    answer: &mut [usize],
)
    ensures { InNumbers (ListsNumbers (as_numbers (edition_numbered edition) n k initial recurring table.now marks.now) room
        (list_numbers_tables (build_numbers_tables (witness_tables word.old one.old other.old) (tracker_tables tuples.old nexts.old))
        out.old)
        (list_numbers_tables (build_numbers_tables (witness_tables word.new one.new other.new) (tracker_tables tuples.new nexts.new))
        out.new))
        written_cells answer.old answer.new }
{
    let a = answers::numbers_of(edition, n, k, initial, recurring);
    let r = listing::list_numbers(a, table, marks, room, tuples, nexts, word, one, other, out);
    cells::put_written(r, answer);
}
