// The plain engine: whether a pattern matches a text. It works on any bytes and refuses nothing; the matcher's refusals stand in wildmatch, and
// both questions ask it through entries. Its contract is `MatchDecided` and no more, so that another engine can be held to the same.
#![tactic(auto)]

ghost use Rattle.patterns.specs.MatchTest.{MatchDecided};

mod matcher;
mod runkind;
mod segment;
mod skip;

use matcher::{Outcome, match_items};
use patterns::Mode;

// Whether the pattern matches the text, of any length and with any bytes: for callers that have done their own refusing.
#[tactic(auto, using(crate::proofs::OutcomeLaws::answer_other))]
pub fn matches(pattern: &[u8], text: &[u8], mode: Mode) -> bool
    ensures { MatchDecided mode pattern.now text.now result }
{
    matches!(match_items(pattern, text, mode), Outcome::Matched)
}
