// The colour of a step, and the colours of its places.
#![tactic(auto)]

ghost use Rattle.std.specs.Prelude.{◌≡◌, ◌≤◌, min};
ghost use Rattle.sets.specs.Sets.{is_empty};
ghost use Rattle.colour.specs.Colour.{neutral, marked, emptied, changed, is_emptied, colour_at, dead_or};

// The colour of a step.
#[derive(Clone, Copy)]
pub struct Colour(pub u16);

impl Colour {
    // Set 0 is empty.
    pub const DEAD: Colour = Colour(1);

    // No place is marked or emptied, of n.
    pub fn neutral(n: usize) -> Colour
        requires { n ≤ 16 }
        ensures { result.0 ≡ neutral n }
    {
        Colour(2 * (n as u16) + 1)
    }

    // Place i is marked.
    pub fn marked(i: usize) -> Colour
        requires { i ≤ 16 }
        ensures { result.0 ≡ marked i }
    {
        Colour(2 * (i as u16) + 2)
    }

    // Place i was not empty before the step, and is now.
    pub fn emptied(i: usize) -> Colour
        requires { i ≤ 16 }
        ensures { result.0 ≡ emptied i }
    {
        Colour(2 * (i as u16) + 1)
    }

    // Place i is marked or emptied: 2i+2, less one for an emptied one.
    pub fn changed(i: usize, emptied: bool) -> Colour
        requires { i ≤ 16 }
        ensures { result.0 ≡ changed i emptied }
    {
        Colour(2 * (i as u16) + 2 - emptied as u16)
    }

    pub fn least(self, other: Colour) -> Colour
        ensures { result.0 ≡ min self.0 other.0 }
    {
        // With `other` first a step takes fewer instructions.
        Colour(other.0.min(self.0))
    }
}

// "1 if set 0 is empty": the colour of a step whose set 0 is given.
pub fn dead_or(first: u16, colour: Colour) -> Colour
    ensures { result.0 ≡ dead_or (is_empty first) colour.0 }
{
    if first == 0 { Colour::DEAD } else { colour }
}

// Is place i, with set x now, emptied? The first p places were non-empty before the step.
fn is_emptied(p: usize, i: usize, x: u16) -> bool
    ensures { result ≡ is_emptied p i x }
{
    x == 0 && i < p
}

// The colour of place i with set x after its turn: marked, emptied, or neither. A mark goes first.
pub fn colour_at(n: usize, i: usize, p: usize, x: u16, mark: bool) -> Colour
    requires { (n ≤ 16) × (i ≤ 16) }
    ensures { result.0 ≡ colour_at n i mark (is_emptied p i x) }
{
    let emptied = is_emptied(p, i, x);
    if mark || emptied {
        return Colour::changed(i, !mark);
    }
    Colour::neutral(n)
}
