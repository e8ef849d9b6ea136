// The lowest refusal of each question.
ghost use Rattle.refusals.specs.Refusals.{LowestOrNone};
ghost use Rattle.refusals.specs.Numbers.{found_number};
ghost use Rattle.questionrefusals.specs.Conditions.{IgnoreRefuses, AttributeRefuses};
ghost use Rattle.questionrefusals.specs.inner.Checks.{LentFirstHolding};

use crate::lists::lists_bad;
use crate::rules::{line_long, rules_long};
use attributenames::name_bad;
use paths::path_bad;
use refusals::flags::flags_high;
use refusals::{Refusal, holds_zero};
use rulefiles::RuleFiles;

// The lowest refusal of the lent path and rules, if there is one.
#[tactic(auto, using(bytestrings::proofs::BoolLaws::not_if_false), unfolding(crate::specs::inner::Checks::LentFirstHolding))]
fn lent_refusal(path: &[u8], files: &RuleFiles) -> Result<(), Refusal>
    ensures { LentFirstHolding path.now files.now.rules.now files.now.ends.now files.now.bases.now (found_number result) }
{
    if path_bad(path) {
        return Err(Refusal::BadPath);
    }
    if lists_bad(path, files) {
        return Err(Refusal::BadLists);
    }
    if rules_long(files.rules) {
        return Err(Refusal::RulesLong);
    }
    if holds_zero(files.rules) {
        return Err(Refusal::RulesHoldZero);
    }
    if line_long(files) {
        return Err(Refusal::LineLong);
    }
    Ok(())
}

// The lowest refusal of the ignore question, or none where it is accepted.
pub fn ignore_refusal(path: &[u8], files: &RuleFiles, flags: u64) -> Result<(), Refusal>
    ensures { LowestOrNone (IgnoreRefuses path.now files.now.rules.now files.now.ends.now files.now.bases.now flags) (found_number result) }
{
    lent_refusal(path, files)?; // 1 to 5, below 9
    if flags_high(flags) {
        return Err(Refusal::FlagsHigh);
    }
    Ok(())
}

// The lowest refusal of the attribute question, or none where it is accepted.
pub fn attribute_refusal(
    path: &[u8],
    files: &RuleFiles,
    name: &[u8],
    flags: u64,
) -> Result<(), Refusal>
    ensures { LowestOrNone (AttributeRefuses path.now files.now.rules.now files.now.ends.now files.now.bases.now name.now flags) (found_number result) }
{
    lent_refusal(path, files)?; // 1 to 5, below 6 and 9
    if name_bad(name) {
        return Err(Refusal::BadName);
    }
    if flags_high(flags) {
        return Err(Refusal::FlagsHigh);
    }
    Ok(())
}
