// A path's answer: its parents from the top down, then the path itself.
ghost use Rattle.std.specs.Prelude.{◌≡◌, Ok};
ghost use Rattle.rulefiles.specs.RuleFiles.{ordered_lines};
ghost use Rattle.answers.specs.Complete.{complete_ignore};
ghost use Rattle.verdicts.specs.Verdicts.{verdict, parents, judged, top_down};
ghost use Rattle.verdicts.specs.inner.Scan.{ignored_at, first_ignored};

use crate::rule::IgnoreRule;
use crate::scan::last_decision;
use answers::DecidedEntry;
use entries::component_start;
use ignorelines::Verdict;
use rulefiles::{Decision, RuleFiles};

// An entry's own verdict, by the last line that says something of it.
#[tactic(auto, using(crate::proofs::VerdictLaws::ignore_reads))]
fn entry_verdict(
    files: &RuleFiles,
    entry: &[u8],
    directory: bool,
    fold: bool,
) -> Option<Decision<Verdict>>
    ensures { result ≡ verdict fold (ordered_lines files.now.rules.now files.now.ends.now files.now.bases.now) (record { bytes = entry.now; directory = directory }) }
{
    last_decision(&IgnoreRule, files, entry, directory, fold)
}

// What an entry of this length answers for those below it: only an ignored one does.
fn ignored_at(verdict: Option<Decision<Verdict>>, length: usize) -> Option<DecidedEntry>
    ensures { result ≡ ignored_at length verdict }
{
    match verdict {
        Some(decision) if decision.what == Verdict::Ignored => Some(DecidedEntry {
            length,
            decision,
        }),
        _ => None,
    }
}

// The first of an entry's parents, from the top down, that is ignored. The parent's own parents are settled first.
fn first_ignored_parent(files: &RuleFiles, entry: &[u8], fold: bool) -> Option<DecidedEntry>
    ensures { result ≡ first_ignored (verdict fold (ordered_lines files.now.rules.now files.now.ends.now files.now.bases.now)) (parents entry.now) }
{
    let n = component_start(entry).checked_sub(1)?;
    let parent = &entry[..n];
    match first_ignored_parent(files, parent, fold) {
        Some(d) => Some(d),
        None => ignored_at(entry_verdict(files, parent, true, fold), n),
    }
}

// What an entry of this length answers by its own verdict.
#[tactic(auto, unfolding(answers::specs::Complete::complete_ignore))]
fn judge(verdict: Option<Decision<Verdict>>, length: usize) -> Option<DecidedEntry>
    ensures { complete_ignore (Ok result) ≡ judged length verdict }
{
    verdict.map(|decision| DecidedEntry { length, decision })
}

// The path's answer: the rule from the top down.
pub fn judge_path(
    files: &RuleFiles,
    path: &[u8],
    directory: bool,
    fold: bool,
) -> Option<DecidedEntry>
    ensures { complete_ignore (Ok result) ≡ top_down (verdict fold (ordered_lines files.now.rules.now files.now.ends.now files.now.bases.now)) (parents path.now) (record { bytes = path.now; directory = directory }) }
{
    match first_ignored_parent(files, path, fold) {
        Some(d) => Some(d),
        None => judge(entry_verdict(files, path, directory, fold), path.len()),
    }
}
