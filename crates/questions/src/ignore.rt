// The ignore question: refused, or the path's answer.
ghost use Rattle.answers.specs.Complete.{complete_ignore};
ghost use Rattle.questions.specs.Answers.{IgnoreAnswered};

use answers::IgnoreAnswer;
use questionrefusals::lowest::ignore_refusal;
use refusals::flags::{flag_one, flag_two};
use rulefiles::RuleFiles;
use verdicts::topdown::judge_path;

// The ignore question over all lent files. Flags: 1 = directory, 2 = fold case.
pub fn ignore(path: &[u8], files: &RuleFiles, flags: u64) -> IgnoreAnswer
    ensures { IgnoreAnswered path.now files.now.rules.now files.now.ends.now files.now.bases.now flags (complete_ignore result) }
{
    ignore_refusal(path, files, flags)?;
    Ok(judge_path(files, path, flag_one(flags), flag_two(flags)))
}
