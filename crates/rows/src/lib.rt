// Rows of a lent table, each known by its number.
#![tactic(auto)]

ghost use Rattle.std.specs.Prelude.{◌≡◌, ◌≤◌, length};
ghost use Rattle.tuple_record.specs.Record.{row_cells, record_start};
ghost use Rattle.row_index.specs.Index.{Indexed};
ghost use Rattle.rows.specs.Rows.{FoundOrAdded};

use tuple_record::WayBack;

// The number of a row among the table's m rows. One that is none of them has number m, and is added with its way back where there is room for it.
pub fn find_or_add(
    table: &mut [u16],
    m: usize,
    room: usize,
    row: &[u16],
    way: WayBack,
    head: &mut [u16],
    link: &mut [u16],
) -> usize
    requires { Indexed table.old m head.old link.old × (length row.now ≡ row_cells) × (room ≤ 1024) × (record_start room ≤ length table.old) }
    ensures { FoundOrAdded table.old table.new m room row.now way head.new link.new result }
{
    let h = row_index::digest(row);
    let t = row_index::find(table, m, row, h, head, link);
    if t < m {
        return t;
    }
    if m < room {
        row_index::add(table, m, row, way, h, head, link);
        return m;
    }
    m
}
