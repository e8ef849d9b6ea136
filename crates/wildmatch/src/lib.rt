// The matcher of document 01 as it is called from outside: refusals first, then whether the pattern matches the text, or where it is broken.
// For a user: docs/RULES.md, "Patterns".
#![tactic(auto)]

ghost use Rattle.std.specs.Prelude.{◌≡◌, ◌+◌, ℕ, Ok, IfOk, IfErr};
ghost use Rattle.wildmatch.specs.Answers.{mode_of, Answered, code_of};

use brokenplaces::broken_at;
use engine::matches;
use patterns::Mode;
use refusals::flags::{flag_one, flag_two, flags_high};
use refusals::{Refusal, holds_zero, too_long};

// What the matcher answers: a broken pattern with the place where its first broken item begins.
#[derive(Clone, Copy, Debug, PartialEq, Eq)]
pub enum Answer {
    Unmatched,
    Matched,
    Broken(usize),
}

// The modes that a flags number asks for.
pub fn mode_of(flags: u64) -> Mode
    ensures { result ≡ mode_of flags }
{
    Mode {
        path: flag_one(flags),
        fold: flag_two(flags),
    }
}

// Whether the pattern matches the text, or where it is broken; or the lowest refusal. A pattern that matches is not broken, so only one
// that does not is read again.
pub fn wildmatch(pattern: &[u8], text: &[u8], flags: u64) -> Result<Answer, Refusal>
    ensures { Answered pattern.now text.now flags result }
{
    if too_long(pattern, text) {
        return Err(Refusal::TooLong);
    }
    if holds_zero(pattern) {
        return Err(Refusal::HoldsZero);
    }
    if holds_zero(text) {
        return Err(Refusal::HoldsZero);
    }
    if flags_high(flags) {
        return Err(Refusal::FlagsHigh);
    }
    if matches(pattern, text, mode_of(flags)) {
        return Ok(Answer::Matched);
    }
    match broken_at(pattern) {
        None => Ok(Answer::Unmatched),
        Some(place) => Ok(Answer::Broken(place)),
    }
}

// The number that C gets for an answer: of a broken pattern without the place. A refusal is told by whatever has a number.
#[tactic(auto, unfolding(crate::specs::Answers::code_of))]
pub fn code_of<R: Into<u8>>(answer: Result<Answer, R>) -> u32
    ensures answered { IfOk answer (λ given. result ≡ code_of (Ok given)) }
    ensures refused { IfErr answer (λ refused. (number : ℕ) × R.converts refused number × (result ≡ 16 + number)) }
{
    match answer {
        Ok(Answer::Unmatched) => 0,
        Ok(Answer::Matched) => 1,
        Ok(Answer::Broken(_)) => 2,
        Err(refused) => 16 + u32::from(refused.into()),
    }
}
