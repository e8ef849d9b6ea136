// Refusals 3 and 5: the rule bytes and their lines.
ghost use Rattle.std.specs.Prelude.{◌≡◌, ◌↔◌, true};
ghost use Rattle.questionrefusals.specs.Conditions.{RulesLong, LongLine};
ghost use Rattle.questionrefusals.specs.inner.Scans.{LongIn, LastNewline};

use rulefiles::{RuleFiles, file_part};

const RULES_LIMIT: usize = 65536;

const LINE_LIMIT: usize = 2048;

// Whether the rule bytes are over their limit.
pub fn rules_long(rules: &[u8]) -> bool
    ensures { (result ≡ true) ↔ RulesLong rules.now }
{
    RULES_LIMIT < rules.len()
}

// The place of the last newline, if there is one.
fn last_newline(bytes: &[u8]) -> Option<usize>
    ensures { LastNewline bytes.now result }
{
    bytes.iter().rposition(|b| *b == b'\n')
}

// Whether a line of the file is over its limit. A newline among one byte more than the limit shows that the lines before it are not,
// so most bytes are never read.
fn long_in(file: &[u8]) -> bool
    ensures { (result ≡ true) ↔ LongIn file.now }
{
    let mut rest = file;
    while LINE_LIMIT < rest.len() {
        match last_newline(&rest[..LINE_LIMIT + 1]) {
            Some(newline) => rest = &rest[newline + 1..],
            None => return true,
        }
    }
    false
}

// Whether a line of one of the files is over its limit.
pub fn line_long(files: &RuleFiles) -> bool
    ensures { (result ≡ true) ↔ LongLine files.now.rules.now files.now.ends.now files.now.bases.now }
{
    let mut start = 0;
    for (end, _) in files.ends.iter().zip(files.bases) {
        if long_in(file_part(files.rules, start, *end)) {
            return true;
        }
        start = *end;
    }
    false
}
