// The effect of one ignore line on one entry: none, or that it ignores or re-includes it. For a user: docs/RULES.md, "Ignore lines".
#![tactic(auto)]

ghost use Rattle.std.specs.Prelude.{◌≡◌, false};
ghost use Rattle.entries.specs.Entries.{subject_in};
ghost use Rattle.ignorelines.specs.IgnoreLines.{without_cr, kept, rule_effect, line_effect};

use entries::{Subject, pattern_matches};

// An entry's verdict where a line decides it.
#[derive(Clone, Copy, Debug, PartialEq, Eq)]
pub enum Verdict {
    Ignored,
    Reincluded,
}

// The line without one CR at its end.
fn without_cr(line: &[u8]) -> &[u8]
    ensures { result.now ≡ without_cr line.now }
{
    match line {
        [front @ .., b'\r'] => front,
        _ => line,
    }
}

// How many bytes stay when the trailing spaces go, by a reading of the whole line.
fn kept_scan(line: &[u8]) -> usize
    ensures { result ≡ kept false line.now }
{
    let mut keep = 0;
    let mut escaped = false;
    for (i, &b) in line.iter().enumerate() {
        if escaped || b != b' ' {
            keep = i + 1;
        }
        escaped = !escaped && b == b'\\';
    }
    keep
}

// The same; a line that ends in no space keeps all its bytes.
fn kept_length(line: &[u8]) -> usize
    ensures { result ≡ kept false line.now }
{
    match line {
        [.., b' '] => kept_scan(line),
        _ => line.len(),
    }
}

// The effect of a line that has been stripped.
fn rule_effect(line: &[u8], subject: &Subject) -> Option<Verdict>
    ensures { result ≡ rule_effect (subject_in subject.now) line.now }
{
    match line {
        [b'!', pattern @ ..] => pattern_matches(pattern, subject).then_some(Verdict::Reincluded),
        _ => pattern_matches(line, subject).then_some(Verdict::Ignored),
    }
}

// The effect of a line on the subject.
pub fn line_effect(line: &[u8], subject: &Subject) -> Option<Verdict>
    ensures { result ≡ line_effect (subject_in subject.now) line.now }
{
    match without_cr(line) {
        [] | [b'#', ..] => None,
        content => rule_effect(&content[..kept_length(content)], subject),
    }
}
