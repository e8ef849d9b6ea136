// How the pattern of a line, ignore or attribute, is matched against an entry: directories only, anchored or by the last component. Most lines match
// no entry at hand, so a prefilter asks their last and first byte before the engine. For a user: docs/RULES.md, "Ignore lines".
#![tactic(auto)]

ghost use Rattle.std.specs.Prelude.{◌≡◌, true};
ghost use Rattle.patterns.specs.MatchTest.{matches_test};
ghost use Rattle.bytestrings.specs.Bytes.{has};
ghost use Rattle.entries.specs.Entries.{subject_in, without_first_slash, bare_matches, pattern_matches};
ghost use Rattle.bytestrings.specs.Text.{char};

mod prefilter;
pub mod subject;

use engine::matches;
use patterns::Mode;
use prefilter::{first_byte_excludes, last_byte_excludes};
pub use subject::{Subject, component_start};

// Whether the pattern has a `/`. (`contains` is made for long slices: with it, questions took x1.07 of the instructions.)
fn has_slash(pattern: &[u8]) -> bool
    ensures { result ≡ has (char "/") pattern.now }
{
    pattern.iter().any(|&b| b == b'/')
}

// Whether the pattern matches the text; the engine is asked only if the first bytes allow it.
fn text_matches(pattern: &[u8], text: &[u8], mode: Mode) -> bool
    ensures { result ≡ matches_test mode pattern.now text.now }
{
    !first_byte_excludes(pattern, text, mode.fold) && matches(pattern, text, mode)
}

// The pattern without one `/` at its start.
fn without_first_slash(pattern: &[u8]) -> &[u8]
    ensures { result.now ≡ without_first_slash pattern.now }
{
    match pattern {
        [b'/', rest @ ..] => rest,
        _ => pattern,
    }
}

// Whether a pattern whose last `/` has gone matches: one with a `/` the rest, in path mode; any other the component. (Out of line: most lines match no
// entry by their last byte, and pay nothing for what this saves and restores.)
#[inline(never)]
fn asked_matches(pattern: &[u8], subject: &Subject) -> bool
    ensures { result ≡ bare_matches (subject_in subject.now) pattern.now }
{
    let bare = without_first_slash(pattern);
    let anchored = has_slash(pattern);
    let text = if anchored {
        subject.rest
    } else {
        subject.component
    };
    let mode = Mode {
        path: anchored,
        fold: subject.fold,
    };
    !bare.is_empty() && text_matches(bare, text, mode)
}

// The same; asked only if the last byte allows it.
fn bare_matches(pattern: &[u8], subject: &Subject) -> bool
    ensures { result ≡ bare_matches (subject_in subject.now) pattern.now }
{
    !last_byte_excludes(pattern, subject) && asked_matches(pattern, subject)
}

// Whether the pattern of a line matches the subject.
pub fn pattern_matches(pattern: &[u8], subject: &Subject) -> bool
    ensures { result ≡ pattern_matches (subject_in subject.now) pattern.now }
{
    match pattern {
        [bare @ .., b'/'] => subject.directory && bare_matches(bare, subject),
        _ => bare_matches(pattern, subject),
    }
}
