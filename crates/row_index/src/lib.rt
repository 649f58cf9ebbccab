// The index of the rows of a lent table: a row is found, and one is added, by a digest of its cells. The way back behind a row takes no part in it.
#![tactic(auto)]

ghost use Rattle.std.specs.Prelude.{◌≡◌, ◌<◌, ◌≤◌, ◌+◌, length};
ghost use Rattle.gate.specs.Gate.{Decides};
ghost use Rattle.tuple_record.specs.Record.{set_cells, row_cells, record_cells, record_start, row_at};
ghost use Rattle.row_index.specs.Digest.{mix, mix_from, digest_of};
ghost use Rattle.row_index.specs.Index.{Indexed, Sought, Added, RowFound};

use tuple_record::WayBack;

// How many digests there are.
pub const DIGESTS: usize = 1024;
// The most rows that an index takes.
pub const MOST: usize = 1024;

// A cell mixed into a number below 2^32.
fn mixed(h: usize, x: u16) -> usize
    requires { h < 4294967296 }
    ensures { (result ≡ mix h x) × (result < 4294967296) }
{
    (h + x as usize) * 1327217885 % 4294967296
}

// The sets of a row, mixed: those before the first empty one.
fn mixed_sets(row: &[u16]) -> usize
    requires { length row.now ≡ row_cells }
    ensures { (result ≡ mix_from row.now 0 0 set_cells) × (result < 4294967296) }
{
    let mut h: usize = 0;
    for i in 0..tuple_record::SETS {
        let x = row[i];
        if x == 0 {
            return h;
        }
        h = mixed(h, x);
    }
    h
}

// The digest of a row: of its sets and its colour.
pub fn digest(row: &[u16]) -> usize
    requires { length row.now ≡ row_cells }
    ensures { (result ≡ digest_of row.now) × (result < 1024) }
{
    mixed(mixed_sets(row), row[tuple_record::COLOUR]) / 4194304
}

// Is this the row of tuple t?
fn same(table: &[u16], t: usize, row: &[u16]) -> bool
    requires { (t < 1024) × (record_start t + record_cells ≤ length table.now) × (length row.now ≡ row_cells) }
    ensures { Decides result (row_at table.now t ≡ row.now) }
{
    let at = tuple_record::RECORD * t;
    for i in 0..tuple_record::ROW {
        if table[at + i] != row[i] {
            return false;
        }
    }
    true
}

// The number of a row of digest h among the table's m rows, and m where it is none of them: the chain of the digest is walked.
pub fn find(table: &[u16], m: usize, row: &[u16], h: usize, head: &[u16], link: &[u16]) -> usize
    requires { Indexed table.now m head.now link.now × Sought row.now h }
    ensures { RowFound table.now m row.now result }
{
    let mut p = head[h] as usize;
    // A while: a chain has no length beside it.
    while 0 < p {
        let t = p - 1;
        if same(table, t, row) {
            return t;
        }
        p = link[t] as usize;
    }
    m
}

// A row of digest h becomes row m of the table, behind its m rows, with its way back, and is the last of its digest.
pub fn add(
    table: &mut [u16],
    m: usize,
    row: &[u16],
    way: WayBack,
    h: usize,
    head: &mut [u16],
    link: &mut [u16],
)
    requires { Indexed table.old m head.old link.old × Sought row.now h × (m < 1024) × (record_start m + record_cells ≤ length table.old) }
    ensures { Added table.old table.new m row.now way head.new link.new }
{
    tuple_record::store(table, m, row, way);
    link[m] = head[h];
    head[h] = (m + 1) as u16;
}
