// The superseding letters of a sheet's letters: eight cells behind the rows of names.
#![tactic(auto)]

ghost use Rattle.std.specs.Prelude.{◌≡◌, ◌+◌, ◌<◌, ◌≤◌, length, get_or, set};
ghost use Rattle.superseding.specs.Superseding.{superseding_in, final_letter};

// The letter that supersedes letter l, or 0.
pub fn superseding(rows: &[u8], l: usize) -> usize
    requires { (l < 8) × (224 ≤ length rows.now) }
    ensures { (result ≡ get_or (superseding_in rows.now) l 0) × (result < 256) }
{
    rows[216 + l] as usize
}

// The letter that finally stands for letter l: the chain of superseding letters is followed to its end.
pub fn final_letter(rows: &[u8], l: usize) -> usize
    requires { (l < 8) × (224 ≤ length rows.now) }
    ensures { (result ≡ final_letter (superseding_in rows.now) l) × (result < 8) }
{
    let mut last = l;
    let mut by = superseding(rows, last);
    // A while: a chain has no length beside it.
    while last < by && by < 8 {
        last = by;
        by = superseding(rows, last);
    }
    last
}

// Letter l is withdrawn: m supersedes it.
pub fn withdraw(rows: &mut [u8], l: usize, m: usize)
    requires { (l < 8) × (m < 8) × (224 ≤ length rows.old) }
    ensures { rows.new ≡ set rows.old (216 + l) m }
{
    rows[216 + l] = m as u8;
}
