// One row of the matcher: its pattern and text put to it in each mode.
ghost use Rattle.std.specs.Prelude.{◌≤◌, ◌≡◌};
ghost use Rattle.testtables.specs.Results.{Answers};
ghost use Rattle.testtables.specs.declared.row.RowError.TheVariants.{Malformed};

use crate::fields::MOST_BYTES;
use crate::written::Written;
use crate::{fields, report, written};
use arrayvec::{ArrayVec, CapacityError};
use wildmatch::{Answer, wildmatch};

// What a row that was run came to: how many answers it has, and how many of them differ.
#[derive(Clone, Copy)]
pub struct Ran {
    pub answers: u64,
    pub differ: u64,
}

// Why a row was not run.
#[derive(Clone, Copy)]
pub enum RowError {
    // It has not the fields of its table, or one of them cannot be read or has no room.
    Malformed,
}

impl<T: Drop> From<CapacityError<T>> for RowError {
    ghost from_gives = { λ _ e. e ≡ Malformed };

    fn from(_e: CapacityError<T>) -> RowError {
        RowError::Malformed
    }
}

// A mode: its flags number and its name.
#[derive(Clone, Copy)]
struct Mode {
    flags: u64,
    name: &'static str,
}

// The modes, in the order of the expected answers.
const MODES: [Mode; 4] = [
    Mode {
        flags: 1,
        name: "path",
    },
    Mode {
        flags: 3,
        name: "path+fold",
    },
    Mode {
        flags: 0,
        name: "plain",
    },
    Mode {
        flags: 2,
        name: "plain+fold",
    },
];

// A row that asks the matcher. Where `lenient`, broken is read as no match.
#[derive(Drop)]
struct MatcherRow<'a> {
    label: &'a [u8],
    pattern: &'a [u8],
    text: &'a [u8],
    expected: &'a [u8],
    lenient: bool,
}

// What is expected in the i-th mode: its digit, or the words for a broken pattern, which hold in all modes.
fn expected_in(expected: &[u8], i: usize) -> &[u8] {
    if expected.len() > 4 {
        return expected;
    }
    let digits = expected.get(i..).unwrap_or(b"");
    digits.get(..1).unwrap_or(b"")
}

impl MatcherRow<'_> {
    // Writes the matcher's answer into `got`, which has room for it.
    fn answer(&self, flags: u64, got: &mut Written) {
        let answer = match wildmatch(self.pattern, self.text, flags) {
            Ok(Answer::Broken(_)) if self.lenient => Ok(Answer::Unmatched),
            given => given,
        };
        got.clear();
        let _ = written::matched(got, answer);
    }

    // Whether the answer in the i-th mode is another than expected; says so if it is.
    fn differs(&self, rt: HostRuntime, i: usize, mode: Mode, got: &mut Written) -> bool {
        self.answer(mode.flags, got);
        let same = got.as_slice() == expected_in(self.expected, i);
        if !same {
            report::other_mode(rt, self.label, mode.name, self.expected, got.as_slice());
        }
        !same
    }

    fn run(&self, rt: HostRuntime) -> Ran
        ensures { (result.answers ≡ 4) × (result.differ ≤ 4) }
    {
        let mut got = ArrayVec::new();
        let mut differ = 0;
        for (i, mode) in MODES.iter().enumerate() {
            if self.differs(rt, i, *mode, &mut got) {
                differ += 1;
            }
        }
        Ran { answers: 4, differ }
    }
}

// Whether a field has the form of expected answers: a digit for each mode, or the words for a broken pattern, which hold in all modes.
fn is_expectation(field: &[u8]) -> bool {
    match field.strip_prefix(b"broken ") {
        Some(place) => !place.is_empty(),
        None => field.len() == 4 && field.iter().all(|b| *b == b'0' || *b == b'1'),
    }
}

// Runs a row of four fields: its label, its pattern, its text, and the answers expected. Where `lenient`, it reads broken as no match.
// Never inlined: its buffers are on the stack only while a row is run.
#[inline(never)]
pub fn run(rt: HostRuntime, row: &[u8], lenient: bool) -> Result<Ran, RowError>
    ensures { Answers 4 result }
{
    let mut fields = row.splitn(4, |b| *b == b'\t');
    let (Some(label), Some(pattern), Some(text), Some(expected)) = (
        fields.next(),
        fields.next(),
        fields.next(),
        fields.next(),
    ) else {
        return Err(RowError::Malformed);
    };
    if !is_expectation(expected) {
        return Err(RowError::Malformed);
    }
    let mut pattern_bytes = ArrayVec::<u8, MOST_BYTES>::new();
    let mut text_bytes = ArrayVec::<u8, MOST_BYTES>::new();
    fields::decode(pattern, &mut pattern_bytes)?;
    fields::decode(text, &mut text_bytes)?;
    let row = MatcherRow {
        label,
        pattern: pattern_bytes.as_slice(),
        text: text_bytes.as_slice(),
        expected,
        lenient,
    };
    Ok(row.run(rt))
}
