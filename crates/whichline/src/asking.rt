// Each path of the listing is asked over the rule files above it, and answered by a line of fields.
ghost use Rattle.lending.specs.inner.Room.{Within};

use crate::arguments::Question;
use crate::fields::Out;
use crate::given::Given;
use crate::listing::{Entry, Found, Unread};
use crate::messages::Said;
use crate::written::Asked;
use crate::{buffers, messages};
use lending::{Buffers, Lent};
use rulefiles::RuleFiles;

// Answers are written out when so many bytes of them wait; an answer has fewer than the buffer has left then.
const WAITING: usize = 131072;

// What is asked of each path, and the rule files that it is asked over.
#[derive(Clone, Copy)]
struct Asking<'a> {
    question: Question<'a>,
    given: &'a Given,
}

// The flags of a question: 1 = directory, 2 = fold case. A number, as the C calls have them and the questions take it.
fn flags(directory: bool, fold: bool) -> u64 {
    match (directory, fold) {
        (false, false) => 0,
        (true, false) => 1,
        (false, true) => 2,
        (true, true) => 3,
    }
}

// Writes out all answers that wait.
fn write_out(rt: HostRuntime, out: &mut Out) -> Result<(), Said> {
    if let Err(e) = rt.write_all(out.filled()) {
        return Err(messages::failed(rt, b"standard output", e));
    }
    out.clear();
    Ok(())
}

impl<'a> Asking<'a> {
    // Asks over the files that were lent, and puts the answer.
    #[tactic(auto, unfolding(lending::specs::inner::Room::Within))]
    fn put_answer(
        self,
        rt: HostRuntime,
        out: &mut Out,
        entry: Entry<'a>,
        lent: Lent,
        buffers: &'a Buffers,
    )
        requires { Within lent buffers.now }
    {
        let rules = &*buffers.rules;
        let ends = &*buffers.ends;
        let bases = &*buffers.bases;
        let numbers = &*buffers.numbers;
        let files = RuleFiles {
            rules: &rules[..lent.bytes],
            ends: &ends[..lent.files],
            bases: &bases[..lent.files],
        };
        let path = entry.path();
        let asked = Asked {
            line: entry.line,
            rules: files.rules,
            numbers: &numbers[..lent.files],
            names: self.given.names(),
        };
        let flags = flags(path.len() < entry.line.len(), self.given.folds());
        match self.question {
            Question::Ignore => {
                let answer = questions::ignore::ignore(path, &files, flags);
                asked.put_ignore(rt, out, answer);
            }
            Question::Attribute(name) => {
                let answer = questions::attribute::attribute(path, &files, name, flags);
                asked.put_attribute(rt, out, answer);
            }
        }
    }

    // Answers one line of the listing.
    #[tactic(auto, using(lending::proofs::LendLaws::holds_within))]
    fn answer_line(self, rt: HostRuntime, out: &mut Out, entry: Entry<'a>, buffers: &mut Buffers) {
        // It is always done: the rules have room for all given files, and there are as many numbers as files.
        let Ok(lent) = lending::lend(
            entry.path(),
            self.given.directories(),
            self.given.files(),
            buffers,
        ) else {
            return;
        };
        entry.put(out);
        out.put(b"\t");
        self.put_answer(rt, out, entry, lent, buffers);
        out.put(b"\n");
    }

    // Answers all lines of the listing, one after the other. What is answered is written out before more is read, so that nobody waits for it. A
    // proved loop has to end and nothing says that a listing does, so the turns are counted up to a number that no listing uses up.
    fn answer_all(
        self,
        rt: HostRuntime,
        out: &mut Out,
        input: &mut [u8],
        buffers: &mut Buffers,
    ) -> Result<(), Said> {
        let mut unread = Unread::at_start();
        for _ in 0..u64::MAX {
            match unread.look(input) {
                Found::Over => return write_out(rt, out),
                Found::Again(rest) => unread = rest,
                // Where the answers cannot be written, it is read once more all the same: what is wrong with the listing is said too.
                Found::More(rest) => {
                    let written = write_out(rt, out);
                    unread = rest.read_more(rt, input)?;
                    written?;
                }
                Found::Next(line) => {
                    unread = line.after;
                    if let Some(entry) = line.entry(input) {
                        self.answer_line(rt, out, entry, buffers);
                    }
                    if out.filled().len() > WAITING {
                        write_out(rt, out)?;
                    }
                }
            }
        }
        Ok(())
    }

    // Answers the listing on standard input.
    fn answer(self, rt: HostRuntime) -> Result<(), Said> {
        let mut rules = buffers::rules();
        let mut ends = buffers::numbers();
        let mut bases = buffers::numbers();
        let mut numbers = buffers::numbers();
        let mut buffers = Buffers {
            rules: &mut rules,
            ends: &mut ends,
            bases: &mut bases,
            numbers: &mut numbers,
        };
        let mut answers = buffers::out();
        let mut out = Out::new(&mut answers);
        let mut input = io::large_buffer();
        self.answer_all(rt, &mut out, &mut input, &mut buffers)
    }
}

// Reads the rule files that the arguments give, then answers the listing. Never inlined: its buffers are a megabyte of the stack, which help and a
// complaint about the question do without.
#[inline(never)]
pub fn run(rt: HostRuntime, question: Question) -> Result<(), Said> {
    let first = match question {
        Question::Ignore => 2,
        Question::Attribute(_) => 3,
    };
    let mut given = Given::none();
    given.take_all(rt, first)?;
    let asking = Asking {
        question,
        given: &given,
    };
    asking.answer(rt)
}
