// An attribute's answer: its state.
ghost use Rattle.std.specs.Prelude.{◌≡◌, Ok};
ghost use Rattle.rulefiles.specs.RuleFiles.{ordered_lines};
ghost use Rattle.answers.specs.Complete.{complete_attribute};
ghost use Rattle.verdicts.specs.Verdicts.{attribute_state, state_answer};

use crate::rule::AttributeRule;
use crate::scan::last_decision;
use attributelines::State;
use rulefiles::{Decision, RuleFiles};

// The attribute's answer over all files: its state, by the last line that says something of it.
pub fn attribute_answer(
    files: &RuleFiles,
    path: &[u8],
    attribute: &[u8],
    directory: bool,
    fold: bool,
) -> Option<Decision<State>>
    ensures { complete_attribute (Ok result) ≡ state_answer (attribute_state fold attribute.now (ordered_lines files.now.rules.now files.now.ends.now files.now.bases.now) (record { bytes = path.now; directory = directory })) }
{
    let rule = AttributeRule { name: attribute };
    last_decision(&rule, files, path, directory, fold)
}
