// The lines read one after another, file after file: the last one that says something decides.
ghost use Rattle.std.specs.Prelude.{◌≡◌};
ghost use Rattle.rulefiles.specs.RuleFiles.{ordered_lines};
ghost use Rattle.rulefiles.specs.Decisions.{override, last_decision};
ghost use Rattle.entries.specs.Entries.{subject_in};
ghost use Rattle.verdicts.specs.inner.Scan.{effect_on, last_in_file};

use crate::lines::{content_start, rules_upto};
use crate::rule::LineRule;
use entries::Subject;
use rulefiles::{Decision, RuleFiles, line_end, line_place};

// Reads one file more, which starts at `start` of the rules up to its end. (What is decided so far is not passed by value: most lines say nothing.)
fn after_file<R: LineRule>(
    rule: &R,
    upto: &[u8],
    start: usize,
    file: usize,
    subject: &Subject,
    last: &mut Option<Decision<R::Effect>>,
)
    ensures { last.new ≡ override last.old (last_in_file (R.says rule.now (subject_in subject.now)) file upto.now start) }
{
    // By hand: a line's place in the rules is asked for, and a chain over the lines would count that by hand too.
    let mut i = content_start(upto, start);
    let mut line = 1;
    while i < upto.len() {
        let end = line_end(upto, i);
        if let Some(what) = rule.effect(&upto[..end], i, subject) {
            *last = Some(Decision {
                what,
                place: line_place(file, line),
            });
        }
        i = end + 1;
        line += 1;
    }
}

// The last decision over all files. (The entry's bytes, what it is and the folding are one value, a `Subject`, from here on.)
pub fn last_decision<R: LineRule>(
    rule: &R,
    files: &RuleFiles,
    entry: &[u8],
    directory: bool,
    fold: bool,
) -> Option<Decision<R::Effect>>
    ensures { result ≡ last_decision (effect_on (R.says rule.now) fold (record { bytes = entry.now; directory = directory }))
        (ordered_lines files.now.rules.now files.now.ends.now files.now.bases.now) }
{
    let whole = Subject::of(entry, directory, fold);
    // One subject for all files: they differ in its rest alone.
    let mut subject = whole;
    let mut last = None;
    let mut start = 0;
    for (file, (end, base)) in files.ends.iter().zip(files.bases).enumerate() {
        // A file with no bytes says nothing.
        let upto = rules_upto(files.rules, *end);
        if start < upto.len() {
            if let Some(seen) = whole.in_file(*base) {
                subject.rest = seen.rest;
                after_file(rule, upto, start, file, &subject, &mut last);
            }
        }
        start = *end;
    }
    last
}
