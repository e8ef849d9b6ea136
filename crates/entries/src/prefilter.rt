// The prefilter: two quick tests before the engine is asked. Most lines do not match an entry, and most of these show it in their last byte; of the
// lines that end in a wildcard, most begin with a byte that stands for itself, and few entries begin with it.
ghost use Rattle.std.specs.Prelude.{◌≡◌, true};
ghost use Rattle.entries.specs.Entries.{subject_in};
ghost use Rattle.entries.specs.inner.Prefilter.{end_accepted, Excludes, ExcludesText};

use crate::subject::Subject;
use bytestrings::letters::same_letter;
use patterns::items::is_literal;

// Whether the text ends in a byte that the literal c accepts.
pub fn ends_in(c: u8, text: &[u8], fold: bool) -> bool
    ensures { result ≡ end_accepted fold c text.now }
{
    match text {
        [.., x] => same_letter(c, *x, fold),
        [] => false,
    }
}

// Whether the pattern matches neither text, since it ends in a literal that accepts the last byte of neither. At its end any byte is a
// literal, with a `\` before it or not, but `*`, `?` and `]`, which need not be one, and `/`, which may take nothing. (A last `\` that is no
// literal breaks the pattern, which then matches nothing.)
pub fn last_byte_excludes(pattern: &[u8], subject: &Subject) -> bool
    ensures { Excludes (subject_in subject.now) pattern.now result }
{
    match pattern {
        [] | [.., b'*' | b'/' | b'?' | b']'] => false,
        [.., c] => {
            !ends_in(*c, subject.rest, subject.fold)
                && !ends_in(*c, subject.component, subject.fold)
        }
    }
}

// Whether the pattern does not match the text, since it begins with a literal that does not accept the text's first byte.
pub fn first_byte_excludes(pattern: &[u8], text: &[u8], fold: bool) -> bool
    ensures { ExcludesText fold pattern.now text.now result }
{
    match (pattern, text) {
        ([c, ..], [x, ..]) => !same_letter(*c, *x, fold) && is_literal(*c),
        _ => false,
    }
}
