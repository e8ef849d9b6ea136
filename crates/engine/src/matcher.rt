// The item matcher and the run matcher, which call each other.
//
// Why they answer more than yes or no: a pattern with many stars could be tried at every place for every star, and the time would grow without a useful
// bound. So a part that fails also answers whether it would fail after a run before it, and that run is then given up at once. Only this bounds the work,
// to about pattern times text; the answer does not depend on it. git's wildmatch has the same answers: no match, abort to the last `**`, abort all.
ghost use Rattle.std.specs.Prelude.{◌≡◌, true, ◌≤◌, length};
ghost use Rattle.patterns.specs.MatchTest.{tail_matches};
ghost use Rattle.patterns.specs.inner.Tails.{after_at, slash_then};
ghost use Rattle.engine.specs.inner.Outcomes.{Means, MeansRun, NextSlash, FirstPlace};

use crate::runkind::{RunKind, classify_run};
use crate::segment::{Stop, match_segment};
use crate::skip::{next_place, skip_to};
use patterns::Mode;
use patterns::items::is_inside;

// (Pattern, text and mode are passed apart in this crate: each call has other tails of the first two.)

// It matches; it does not match here; nor after a run before it that stays in the component, so that only a crossing run may try again; nor after any
// run that can stand before it.
#[derive(Clone, Copy, Debug, PartialEq)]
pub enum Outcome {
    Matched,
    NoMatch,
    AbortToStarStar,
    AbortAll,
}

// Whether place i starts the pattern p or follows a byte `/`.
#[tactic(auto, using(crate::proofs::MatcherLaws::follows_start, crate::proofs::MatcherLaws::follows_later))]
fn follows_slash(p: &[u8], i: usize) -> bool
    requires { i ≤ length p.now }
    ensures { result ≡ after_at true p.now i }
{
    i == 0 || p[i - 1] == b'/'
}

// The place after the next `/` of t from place k on; one past the text's end where there is none, which is where the caller's loop ends.
fn after_slash(t: &[u8], k: usize) -> usize
    requires { k ≤ length t.now }
    ensures { NextSlash t.now k result }
{
    next_place(t, k, |x| *x == b'/') + 1
}

// The first place where a run that crosses to after a `/` may end: the start where `here`.
fn first_place(t: &[u8], here: bool) -> usize
    ensures { FirstPlace here t.now result }
{
    if here { 0 } else { after_slash(t, 0) }
}

// The pattern p, which is the whole one or follows a byte `/`, item by item. The segment from place a of p is tried at place k of t;
// where a run within a component stands before it, it slides on, and the first place where it fits decides.
#[cycle(match_crossing_match_items)]
pub fn match_items(p: &[u8], t: &[u8], m: Mode) -> Outcome
    ensures { Means m true (tail_matches m true p.now) t.now result }
{
    let mut a = 0;
    let mut k = 0;
    let mut slides = false;
    loop {
        match match_segment(&p[a..], &t[k..], m) {
            Stop::Whole => return Outcome::Matched,
            Stop::TooShort => return Outcome::AbortAll,
            Stop::Mismatch => {
                if !slides {
                    return Outcome::NoMatch;
                }
                if t.len() <= k {
                    return Outcome::AbortAll;
                }
                if !is_inside(t[k], m) {
                    return Outcome::AbortToStarStar;
                }
                k = skip_to(&p[a..], t, k + 1, m);
            }
            Stop::Run(i, j) => {
                let at = a + i;
                match classify_run(&p[at..], m, follows_slash(p, at)) {
                    RunKind::Within(n) => a = at + n,
                    RunKind::All => return Outcome::Matched,
                    RunKind::ToSlash(n, here) => {
                        return match_crossing(&p[at + n..], &t[k + j..], m, here);
                    }
                }
                k = skip_to(&p[a..], t, k + j, m);
                slides = true;
            }
        }
    }
}

// A run that crosses to after a `/`, or takes nothing where `here`, and then the pattern p.
// (d) The places are no range: each is found by a search from the one before, so an iterator over them would carry the same k.
#[cycle(match_crossing_match_items)]
fn match_crossing(p: &[u8], t: &[u8], m: Mode, here: bool) -> Outcome
    ensures { MeansRun m true (slash_then m here p.now) t.now result }
{
    let mut k = first_place(t, here);
    while k <= t.len() {
        match match_items(p, &t[k..], m) {
            Outcome::Matched => {
                return Outcome::Matched;
            }
            Outcome::AbortAll => {
                return Outcome::AbortAll;
            }
            Outcome::NoMatch => {}
            Outcome::AbortToStarStar => {}
        }
        k = after_slash(t, k);
    }
    Outcome::AbortAll
}
