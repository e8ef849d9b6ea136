// One row that asks a question: the files that it lends, the path, what is asked, and the complete answer.
ghost use Rattle.testtables.specs.Results.{Answers};

use crate::lend::{Lent, lend};
use crate::row::{Ran, RowError};
use crate::written::Written;
use crate::{fields, report, written};
use arrayvec::ArrayVec;
use questions::attribute::attribute;
use questions::ignore::ignore;
use rulefiles::RuleFiles;

// The fields of a row. What is asked is the flags, a digit, for the attribute question with a space and the attribute's name after them.
#[derive(Drop)]
struct QuestionRow<'a> {
    label: &'a [u8],
    files: &'a [u8],
    path: &'a [u8],
    asked: &'a [u8],
    expected: &'a [u8],
}

impl QuestionRow<'_> {
    // Puts the question, and writes the answer into `got`, which is empty and has room for it.
    fn answer(&self, path: &[u8], files: &RuleFiles, got: &mut Written) -> Result<(), RowError> {
        let _ = match self.asked {
            [digit @ b'0'..=b'9'] => {
                written::ignore(got, ignore(path, files, u64::from(*digit - b'0')))
            }
            [digit @ b'0'..=b'9', b' ', name @ ..] => {
                let answer = attribute(path, files, name, u64::from(*digit - b'0'));
                written::attribute(got, answer, files.rules)
            }
            _ => return Err(RowError::Malformed),
        };
        Ok(())
    }

    // Lends the files, puts the question, and compares. Never inlined: its buffers are on the stack only while a row is run.
    #[inline(never)]
    fn run(&self, rt: HostRuntime, sheet: &[u8]) -> Result<Ran, RowError>
        ensures { Answers 1 result }
    {
        let mut bytes = ArrayVec::new();
        let mut lent = Lent::nothing();
        let mut got = ArrayVec::new();
        lend(sheet, self.files, &mut bytes, &mut lent)?;
        fields::decode(self.path, &mut bytes)?;
        self.answer(bytes.as_slice(), &lent.files(), &mut got)?;
        let same = got.as_slice() == self.expected;
        if !same {
            report::other_answer(rt, self.label, self.expected, got.as_slice());
        }
        Ok(Ran {
            answers: 1,
            differ: u64::from(!same),
        })
    }
}

// Runs a row of five fields: its label, its files, the path, what is asked, and the answer expected.
pub fn run(rt: HostRuntime, sheet: &[u8], row: &[u8]) -> Result<Ran, RowError>
    ensures { Answers 1 result }
{
    let mut fields = row.splitn(5, |b| *b == b'\t');
    let (Some(label), Some(files), Some(path), Some(asked), Some(expected)) = (
        fields.next(),
        fields.next(),
        fields.next(),
        fields.next(),
        fields.next(),
    ) else {
        return Err(RowError::Malformed);
    };
    let row = QuestionRow {
        label,
        files,
        path,
        asked,
        expected,
    };
    row.run(rt, sheet)
}
