// Refusal 2: the lists of ends and bases.
ghost use Rattle.std.specs.Prelude.{◌≡◌, ◌↔◌, ◌⊎◌, true};
ghost use Rattle.std.specs.List.{list_any};
ghost use Rattle.questionrefusals.specs.inner.Scans.{base_bad};
ghost use Rattle.questionrefusals.specs.Conditions.{EndBelow, last_end, BadLists};

use rulefiles::RuleFiles;

const FILES_LIMIT: usize = 64;

// The last end; with no files, 0.
#[tactic(auto, using(crate::proofs::ListLaws::last_none, crate::proofs::ListLaws::last_some))]
fn last_end(ends: &[usize]) -> usize
    ensures { result ≡ last_end ends.now }
{
    match ends {
        [] => 0,
        [.., last] => *last,
    }
}

// Whether an end is below the one before, or the last is not n.
#[tactic(auto, using(crate::proofs::ListLaws::ends_unsorted, crate::proofs::ListLaws::ends_sorted))]
fn ends_bad(ends: &[usize], n: usize) -> bool
    ensures { (result ≡ true) ↔ EndBelow ends.now ⊎ (last_end ends.now ≡ n → ⊥) }
{
    !ends.is_sorted() || last_end(ends) != n
}

// Whether a base is neither 0 nor just after a `/` within the path.
#[tactic(auto, unfolding(crate::specs::inner::Scans::base_bad))]
fn base_bad(path: &[u8], base: usize) -> bool
    ensures { result ≡ base_bad path.now base }
{
    base != 0 && (path.len() <= base || path[base - 1] != b'/')
}

// Whether one of the bases is.
fn bases_bad(path: &[u8], bases: &[usize]) -> bool
    ensures { result ≡ list_any (base_bad path.now) bases.now }
{
    bases.iter().any(|base| base_bad(path, *base))
}

// Whether the two lists are refused.
#[tactic(auto, unfolding(crate::specs::Conditions::BadLists), using(crate::proofs::ListLaws::lists_long, crate::proofs::ListLaws::lists_ends, crate::proofs::ListLaws::lists_bases))]
pub fn lists_bad(path: &[u8], files: &RuleFiles) -> bool
    ensures { (result ≡ true) ↔ BadLists path.now files.now.rules.now files.now.ends.now files.now.bases.now }
{
    if files.ends.len() != files.bases.len() {
        return true;
    }
    if FILES_LIMIT < files.ends.len() {
        return true;
    }
    if ends_bad(files.ends, files.rules.len()) {
        return true;
    }
    bases_bad(path, files.bases)
}
