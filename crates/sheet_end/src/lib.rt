// Where the sheet ends in the input of `verdict`.
#![tactic(auto)]

ghost use Rattle.std.specs.Prelude.{◌<◌, ◌≤◌, length};
ghost use Rattle.gate.specs.Gate.{Decides};
ghost use Rattle.sheet_end.specs.Split.{EndLine, SheetEnds};

// Whether the line that starts at a, if one does, is just END.
fn ends_at(s: &[u8], a: usize) -> bool
    requires { a < length s.now }
    ensures { Decides result (EndLine s.now a) }
{
    if a > 0 {
        if s[a - 1] != 10 {
            return false;
        }
    }
    text::starts_at(&s[a..], 0, b"END\n")
}

// Where the sheet ends and the plan begins.
pub fn sheet_end(s: &[u8]) -> usize
    ensures { SheetEnds s.now result × (result ≤ length s.now) }
{
    for a in 0..s.len() {
        if ends_at(s, a) {
            return a + 4;
        }
    }
    s.len()
}
