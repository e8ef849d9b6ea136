// The effect of one attribute line on one attribute of one entry: none, or the state that its last mention gives. For a user: docs/RULES.md,
// "Attribute lines".
#![tactic(auto)]

ghost use Rattle.std.specs.Prelude.{◌≡◌, drop};
ghost use Rattle.entries.specs.Entries.{subject_in};
ghost use Rattle.attributelines.specs.AttributeLines.{tokens, definition, pattern_dropped, line_state};
ghost use Rattle.attributelines.specs.inner.Scan.{mentions_state};

mod mention;
mod tokens;

use crate::mention::read_mention;
use crate::tokens::next_token;
use attributenames::name_good;
use bytestrings::same_bytes;
use entries::{Subject, pattern_matches};

// A value's place in the rule bytes.
#[derive(Clone, Copy, Debug, PartialEq, Eq)]
pub struct Span {
    pub start: usize,
    pub length: usize,
}

// An attribute's state where a line decides it.
#[derive(Clone, Copy, Debug, PartialEq, Eq)]
pub enum State {
    Set,
    Unset,
    Value(Span),
    Unspecified,
}

// Whether the pattern begins with `[attr]` and at least one more byte.
fn is_definition(pattern: &[u8]) -> bool
    ensures { result ≡ definition pattern.now }
{
    matches!(pattern, [b'[', b'a', b't', b't', b'r', b']', _, ..])
}

// Whether a line with this pattern is a comment or is dropped.
fn pattern_dropped(pattern: &[u8]) -> bool
    ensures { result ≡ pattern_dropped pattern.now }
{
    match pattern {
        [b'#' | b'!' | b'"', ..] => true,
        _ => is_definition(pattern),
    }
}

// (`same_bytes` has the contract that is needed here; `==` would be tied to the definition once more.)
// The effect of the mentions from a place of the text on; a bad name among them drops the line.
fn mentions_effect(text: &[u8], from: usize, attribute: &[u8]) -> Option<State>
    ensures { result ≡ mentions_state attribute.now (tokens from (drop from text.now)) }
{
    let mut effect = None;
    let mut at = from;
    while let Some((start, end)) = next_token(text, at) {
        let mention = read_mention(&text[start..end], start);
        if !name_good(mention.name) {
            return None;
        }
        if same_bytes(mention.name, attribute) {
            effect = Some(mention.state);
        }
        at = end;
    }
    effect
}

// The effect on the attribute of the line that starts at a place of the text and ends with it.
pub fn line_effect(text: &[u8], at: usize, attribute: &[u8], subject: &Subject) -> Option<State>
    ensures { result ≡ line_state (subject_in subject.now) attribute.now at (drop at text.now) }
{
    let (start, end) = next_token(text, at)?;
    let pattern = &text[start..end];
    if pattern_dropped(pattern) || !pattern_matches(pattern, subject) {
        return None;
    }
    mentions_effect(text, end, attribute)
}
