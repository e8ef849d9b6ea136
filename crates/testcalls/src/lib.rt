// For the outside tests only, no part of the product: the matcher and both questions with the complete answer, its number as the result, its values in a
// lent list; where a pattern is broken; and whether a class name lists a byte. C gets the number alone (crate `fidshore`).
#![tactic(auto)]

ghost use Rattle.std.specs.Prelude.{◌≡◌, [], ◌∷◌, ◌++◌};
ghost use Rattle.answers.specs.Complete.{place_values, state_values, complete_ignore, complete_attribute};
ghost use Rattle.wildmatch.specs.Answers.{values_of};
ghost use Rattle.testcalls.specs.Probes.{put, named_probed, MatchProbed, BrokenProbed, IgnoreProbed, AttributeProbed};

use answers::{AttributeAnswer, IgnoreAnswer, attribute_code, ignore_code};
use attributelines::State;
use brokenplaces::broken_at;
use classnames::name_has;
use questions::attribute::attribute;
use questions::ignore::ignore;
use refusals::Refusal;
use rulefiles::{Decision, RuleFiles};
use wildmatch::{Answer, code_of, wildmatch};

// Puts the values into the first entries of the list, if it has so many.
#[tactic(auto, unfolding(crate::specs::Probes::put))]
fn put(values: &[usize], out: &mut [usize])
    ensures { out.new ≡ put values.now out.old }
{
    if values.len() <= out.len() {
        out[..values.len()].copy_from_slice(values);
    }
}

// Puts the value of an answer of the matcher, if it has one. (This and the next three are a match each on another type; what they share is `put`.)
#[tactic(auto, using(crate::proofs::PutLaws::put_none), unfolding(wildmatch::specs::Answers::values_of))]
fn put_match(answer: Result<Answer, Refusal>, out: &mut [usize])
    ensures { out.new ≡ put (values_of answer) out.old }
{
    match answer {
        Ok(Answer::Broken(place)) => put(&[place], out),
        Ok(Answer::Unmatched | Answer::Matched) | Err(_) => {}
    }
}

// Puts the values of an answer of the ignore question, if it has any.
#[tactic(auto, using(crate::proofs::PutLaws::put_none), unfolding(answers::specs::Complete::complete_ignore))]
fn put_ignore(answer: IgnoreAnswer, out: &mut [usize])
    ensures { out.new ≡ put (complete_ignore answer).values out.old }
{
    match answer {
        Ok(Some(entry)) => {
            let place = entry.decision.place;
            put(&[entry.length, place.file, place.line], out);
        }
        Ok(None) | Err(_) => {}
    }
}

// Puts the values of a state and its place.
#[tactic(auto, using(crate::proofs::PutLaws::put_none), unfolding(answers::specs::Complete::state_values))]
fn put_state(decided: Decision<State>, out: &mut [usize])
    ensures { out.new ≡ put (state_values decided.what ++ place_values decided.place) out.old }
{
    let place = decided.place;
    match decided.what {
        State::Value(value) => put(&[value.start, value.length, place.file, place.line], out),
        State::Set | State::Unset | State::Unspecified => put(&[place.file, place.line], out),
    }
}

// Puts the values of an answer of the attribute question, if it has any.
#[tactic(auto, using(crate::proofs::PutLaws::put_none), unfolding(answers::specs::Complete::complete_attribute))]
fn put_attribute(answer: AttributeAnswer, out: &mut [usize])
    ensures { out.new ≡ put (complete_attribute answer).values out.old }
{
    match answer {
        Ok(Some(decided)) => put_state(decided, out),
        Ok(None) | Err(_) => {}
    }
}

// The matcher. Where the pattern is broken, the first entry of `out`, if it has one, becomes the place where the first broken item begins;
// nothing else in `out` changes.
#[unsafe(no_mangle)]
pub extern "C" fn testcalls_match(pattern: &[u8], text: &[u8], flags: u64, out: &mut [usize]) -> u32
    ensures { MatchProbed pattern.now text.now flags result out.old out.new }
{
    let answer = wildmatch(pattern, text, flags);
    put_match(answer, out);
    code_of(answer)
}

// Where any bytes as a pattern are broken: how many places, none or one, and that place as for the matcher.
#[unsafe(no_mangle)]
pub extern "C" fn testcalls_broken(pattern: &[u8], out: &mut [usize]) -> u32
    ensures { BrokenProbed pattern.now result out.old out.new }
{
    match broken_at(pattern) {
        None => 0,
        Some(place) => {
            put(&[place], out);
            1
        }
    }
}

// Whether the k-th of the twelve class names lists the byte x: 1 or 0.
#[unsafe(no_mangle)]
#[tactic(auto, unfolding(crate::specs::Probes::named_probed))]
pub extern "C" fn testcalls_named(k: usize, x: u8) -> u32
    ensures { result ≡ named_probed k x }
{
    if name_has(k, x) { 1 } else { 0 }
}

// The ignore question. Where a line decided, the first three entries of `out` become the entry's length, the file and
// the line; else, and where it has fewer, it is left as it was.
#[unsafe(no_mangle)]
pub extern "C" fn testcalls_ignore(
    path: &[u8],
    rules: &[u8],
    ends: &[usize],
    bases: &[usize],
    flags: u64,
    out: &mut [usize],
) -> u32
    ensures { IgnoreProbed path.now rules.now ends.now bases.now flags result out.old out.new }
{
    let files = RuleFiles { rules, ends, bases };
    let answer = ignore(path, &files, flags);
    put_ignore(answer, out);
    ignore_code(answer)
}

// The attribute question. Where it is a value, the first four entries of `out` become its start and length, the file and the line;
// where it is another state, the first two become the file and the line; else, and where it has fewer, it is left as it was.
#[unsafe(no_mangle)]
pub extern "C" fn testcalls_attribute(
    path: &[u8],
    rules: &[u8],
    ends: &[usize],
    bases: &[usize],
    name: &[u8],
    flags: u64,
    out: &mut [usize],
) -> u32
    ensures { AttributeProbed path.now rules.now ends.now bases.now name.now flags result out.old out.new }
{
    let lent = RuleFiles { rules, ends, bases };
    let answer = attribute(path, &lent, name, flags);
    put_attribute(answer, out);
    attribute_code(answer)
}
