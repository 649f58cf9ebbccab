// The text of a listing: how long it is, and its lines written one behind the other.
#![tactic(auto)]

ghost use Rattle.std.specs.Prelude.{◌≡◌, ◌+◌, ◌*◌, ◌≤◌, length};
ghost use Rattle.std.proofs.lemmas.List.Edits.{sets};
ghost use Rattle.gate.specs.Gate.{lent_text};
ghost use Rattle.listing_lines.specs.PutLine.{line_bytes, ListingLimits, Sized};
ghost use Rattle.listing_text.specs.Listing.{tuple_lines, listing, listing_bytes};

// How many bytes a listing has.
pub fn listing_length(n: usize, k: usize, count: usize) -> usize
    requires { ListingLimits n k count }
    ensures { result ≡ listing_bytes n k count }
{
    21 + count * (10 + (6 * n + 5 * k))
}

// The lines of all tuples.
fn put_tuples(
    out: &mut [u8],
    at: usize,
    n: usize,
    k: usize,
    tuples: &[u16],
    nexts: &[u16],
    count: usize,
)
    requires { Sized n k count tuples.now nexts.now × (at + count * line_bytes n k ≤ length out.old) }
    ensures { out.new ≡ sets out.old at (tuple_lines n k tuples.now nexts.now count) }
{
    let line = 10 + (6 * n + 5 * k);
    let mut p = at;
    for t in 0..count {
        listing_lines::put_tuple(out, p, n, k, tuples, nexts, t);
        p += line;
    }
}

// The whole listing.
fn put_listing(out: &mut [u8], n: usize, k: usize, count: usize, tuples: &[u16], nexts: &[u16])
    requires { Sized n k count tuples.now nexts.now × (listing_bytes n k count ≤ length out.old) }
    ensures { out.new ≡ sets out.old 0 (listing n k count tuples.now nexts.now) }
{
    listing_lines::put_first(out, n, k, count);
    put_tuples(out, 17, n, k, tuples, nexts, count);
    let end = listing_length(n, k, count) - 4;
    text::put_bytes(out, end, b"END\n");
}

// The listing into a buffer with any contents that is long enough: zero behind it.
pub fn write(out: &mut [u8], n: usize, k: usize, count: usize, tuples: &[u16], nexts: &[u16])
    requires { Sized n k count tuples.now nexts.now × (listing_bytes n k count ≤ length out.old) }
    ensures { out.new ≡ lent_text (listing n k count tuples.now nexts.now) out.old }
{
    put_listing(out, n, k, count, tuples, nexts);
    let end = listing_length(n, k, count);
    gate::clear_bytes(&mut out[end..]);
}
