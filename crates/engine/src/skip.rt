// Where a run within a component may end so that what follows can match there.
ghost use Rattle.std.specs.Prelude.{◌≡◌, true, false, ◌≤◌, ◌<◌, ℕ, length, get_or};
ghost use Rattle.std.specs.Fn.{FnReturnsAt};
ghost use Rattle.engine.specs.inner.Outcomes.{Skipped};

use bytestrings::letters::same_letter;
use patterns::Mode;
use patterns::items::{is_inside, is_literal, other_takes};

// The next place of t from k on where the test stops, or the end. (attributelines has its like: a function of a closure asks something of its caller,
// and what a crate shows to others asks nothing.)
pub fn next_place<F: Fn(&u8) -> bool>(t: &[u8], k: usize, stops: F) -> usize
    requires callable { (state : F) (x : _) → F.pre state x }
    requires within { k ≤ length t.now }
    ensures later { k ≤ result }
    ensures within { result ≤ length t.now }
    ensures passed { (j : ℕ) → j < result → k ≤ j → FnReturnsAt F.Fn stops (get_or t.now j 0) false }
    ensures stopped { result < length t.now → FnReturnsAt F.Fn stops (get_or t.now result 0) true }
{
    for j in k..t.len() {
        if stops(&t[j]) {
            return j;
        }
    }
    t.len()
}

// A place of t from k on before which the pattern p does not match: the next that its first item accepts, or is outside, or is the end.
pub fn skip_to(p: &[u8], t: &[u8], k: usize, m: Mode) -> usize
    requires { k ≤ length t.now }
    ensures { Skipped m p.now t.now k result }
{
    match p {
        [] => next_place(t, k, |x| !is_inside(*x, m)),
        [b'*', ..] => k,
        [c, ..] if is_literal(*c) => next_place(
            t,
            k,
            |x| same_letter(*c, *x, m.fold) || !is_inside(*x, m),
        ),
        _ => next_place(
            t,
            k,
            |x| other_takes(p, *x, m).is_some() || !is_inside(*x, m),
        ),
    }
}
