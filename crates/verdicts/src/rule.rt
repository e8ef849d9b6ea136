// What one line says of an entry: of the two kinds of lines, all that the reading of line after line and file after file differs in.
ghost use Rattle.std.specs.Prelude.{◌≡◌, ℕ, ◌≤◌, List, Option, length, drop};
ghost use Rattle.entries.specs.Entries.{Subject, subject_in};
ghost use Rattle.verdicts.specs.inner.Scan.{ignore_at, attribute_at};

use attributelines::State;
use entries::Subject;
use ignorelines::Verdict;

// A question that each line is asked.
pub trait LineRule {
    // What a line gives the entry, if it says anything of it.
    type Effect: Copy;

    // The same by the subject, and by the line's start and bytes.
    ghost says: { Self → Subject → ℕ → List ℕ → Option Self.Effect };

    // Of the line that starts at a place of the text and ends with it.
    fn effect(&self, text: &[u8], at: usize, subject: &Subject) -> Option<Self::Effect>
        requires { at ≤ length text.now }
        ensures { result ≡ says self.now (subject_in subject.now) at (drop at text.now) };
}

// An ignore line, asked for an entry's verdict.
#[derive(Clone, Copy)]
pub struct IgnoreRule;

impl LineRule for IgnoreRule {
    type Effect = Verdict;

    ghost says = { λ rule. ignore_at };

    #[tactic(auto, unfolding(crate::specs::inner::Scan::ignore_at))]
    fn effect(&self, text: &[u8], at: usize, subject: &Subject) -> Option<Verdict> {
        ignorelines::line_effect(&text[at..], subject)
    }
}

// An attribute line, asked for one attribute's state.
#[derive(Clone, Copy)]
pub struct AttributeRule<'a> {
    pub name: &'a [u8],
}

impl<'a> LineRule for AttributeRule<'a> {
    type Effect = State;

    ghost says = { λ rule subject. attribute_at subject rule.name.now };

    #[tactic(auto, unfolding(crate::specs::inner::Scan::attribute_at))]
    fn effect(&self, text: &[u8], at: usize, subject: &Subject) -> Option<State> {
        attributelines::line_effect(text, at, self.name, subject)
    }
}
