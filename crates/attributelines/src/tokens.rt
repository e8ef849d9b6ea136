// The tokens of a line, one after another.
ghost use Rattle.std.specs.Prelude.{ℕ, ◌≡◌, ◌+◌, ◌<◌, ◌≤◌, true, false, drop, length, get_or, MatchOption};
ghost use Rattle.std.specs.Fn.{FnReturnsAt};
ghost use Rattle.attributelines.specs.AttributeLines.{is_blank};
ghost use Rattle.attributelines.specs.inner.Scan.{blank_length, IsNextToken};

// Whether a byte is a space, a tab or a CR.
#[tactic(auto, unfolding(crate::specs::AttributeLines::is_blank))]
fn is_blank(b: u8) -> bool
    ensures { result ≡ is_blank b }
{
    matches!(b, b' ' | b'\t' | b'\r')
}

// The next place from `at` on whose byte passes the test, or the end. (engine has its like, and says why.)
// A `for`: `position` counts beside the place, x1.05 of a question's instructions.
fn next_place<F: Fn(&u8) -> bool>(text: &[u8], at: usize, test: F) -> usize
    requires callable { (state : F) (x : _) → F.pre state x }
    requires within { at ≤ length text.now }
    ensures later { at ≤ result }
    ensures within { result ≤ length text.now }
    ensures passed { (j : ℕ) → j < result → at ≤ j → FnReturnsAt F.Fn test (get_or text.now j 0) false }
    ensures found { result < length text.now → FnReturnsAt F.Fn test (get_or text.now result 0) true }
{
    for i in at..text.len() {
        if test(&text[i]) {
            return i;
        }
    }
    text.len()
}

// Where the next token from `at` on starts and ends, if there is one.
pub fn next_token(text: &[u8], at: usize) -> Option<(usize, usize)>
    ensures { MatchOption result (length text.now ≤ at + blank_length (drop at text.now)) (λ t. IsNextToken text.now at t.0 t.1) }
{
    if text.len() <= at {
        return None;
    }
    let start = next_place(text, at, |b| !is_blank(*b));
    if start == text.len() {
        return None;
    }
    Some((start, next_place(text, start, |b| is_blank(*b))))
}
