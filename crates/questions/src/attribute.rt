// The attribute question: refused, or the attribute's answer.
ghost use Rattle.answers.specs.Complete.{complete_attribute};
ghost use Rattle.questions.specs.Answers.{AttributeAnswered};

use answers::AttributeAnswer;
use questionrefusals::lowest::attribute_refusal;
use refusals::flags::{flag_one, flag_two};
use rulefiles::RuleFiles;
use verdicts::attribute::attribute_answer;

// The attribute question over all lent files. Flags: 1 = directory, 2 = fold case.
pub fn attribute(path: &[u8], files: &RuleFiles, name: &[u8], flags: u64) -> AttributeAnswer
    ensures { AttributeAnswered path.now files.now.rules.now files.now.ends.now files.now.bases.now name.now flags (complete_attribute result) }
{
    attribute_refusal(path, files, name, flags)?;
    Ok(attribute_answer(files, path, name, flag_one(flags), flag_two(flags)))
}
