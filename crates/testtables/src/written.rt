// Answers as the data files write them.
use crate::fields::MOST_BYTES;
use answers::{AttributeAnswer, DecidedEntry, IgnoreAnswer};
use arrayvec::ArrayVec;
use attributelines::State;
use ignorelines::Verdict;
use refusals::Refusal;
use rulefiles::{Decision, Place};
use std::io;
use std::io::Write;
use wildmatch::Answer;

// An answer as it is written. There is room for each, since a value is no longer than a line, 2,048 bytes.
pub type Written = ArrayVec<u8, MOST_BYTES>;

// A word, and numbers behind it.
fn said(out: &mut Written, word: &str, numbers: &[usize]) -> io::Result<()> {
    out.write_all(word.as_bytes())?;
    for number in numbers {
        write!(out, " {number}")?;
    }
    Ok(())
}

fn refused(out: &mut Written, refusal: Refusal) -> io::Result<()> {
    said(out, "refused", &[usize::from(u8::from(refusal))])
}

// An answer of the matcher.
pub fn matched(out: &mut Written, answer: Result<Answer, Refusal>) -> io::Result<()> {
    match answer {
        Ok(Answer::Unmatched) => said(out, "0", &[]),
        Ok(Answer::Matched) => said(out, "1", &[]),
        Ok(Answer::Broken(place)) => said(out, "broken", &[place]),
        Err(refusal) => refused(out, refusal),
    }
}

// A verdict, the entry's length, the file and the line.
fn decided(out: &mut Written, entry: DecidedEntry) -> io::Result<()> {
    let verdict = match entry.decision.what {
        Verdict::Ignored => "ignored",
        Verdict::Reincluded => "re-included",
    };
    let place = entry.decision.place;
    said(out, verdict, &[entry.length, place.file, place.line])
}

// An answer of the ignore question.
pub fn ignore(out: &mut Written, answer: IgnoreAnswer) -> io::Result<()> {
    match answer {
        Ok(None) => said(out, "nothing", &[]),
        Ok(Some(entry)) => decided(out, entry),
        Err(refusal) => refused(out, refusal),
    }
}

// The bytes that a value has in the rules.
fn value(rules: &[u8], start: usize, length: usize) -> &[u8] {
    let bytes = rules.get(start..).and_then(|rest| rest.get(..length));
    bytes.unwrap_or(b"outside the rules")
}

// A state with the file and the line: as a word, a value with where it starts in the rules, and its bytes.
fn decided_state(out: &mut Written, s: Decision<State>, rules: &[u8]) -> io::Result<()> {
    let Place { file, line } = s.place;
    match s.what {
        State::Set => said(out, "set", &[file, line]),
        State::Unset => said(out, "unset", &[file, line]),
        State::Value(v) => {
            said(out, "value", &[file, line, v.start])?;
            out.write_all(b" ")?;
            out.write_all(value(rules, v.start, v.length))
        }
        State::Unspecified => said(out, "unspecified", &[file, line]),
    }
}

// An answer of the attribute question.
pub fn attribute(out: &mut Written, answer: AttributeAnswer, rules: &[u8]) -> io::Result<()> {
    match answer {
        Ok(None) => said(out, "nothing", &[]),
        Ok(Some(decision)) => decided_state(out, decision, rules),
        Err(refusal) => refused(out, refusal),
    }
}
