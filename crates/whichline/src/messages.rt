// What the program says beside its answers: its help, what is wrong, and the refusals in words.
ghost use Rattle.std.specs.Prelude.{◌≡◌};
ghost use Rattle.refusals.specs.Numbers.{number_of};
ghost use Rattle.whichline.specs.Places.{after, Onward, reason_length};

use crate::fields::Out;
use refusals::Refusal;
use std::io::{Error, Write};
use std::str;

// Something failed, and it was said.
#[derive(Clone, Copy, Debug, PartialEq, Eq)]
pub struct Said;

// How the program is asked, and what it answers.
const HELP: &[u8] = b"whichline: which line of the rule files decided?

    whichline ignore [--fold] RULES.. < LISTING
    whichline attribute NAME [--fold] RULES.. < LISTING

NAME: the attribute; left out, the first rule file would be taken for it.
RULES: rule files, lowest precedence first; one that stands below the archive's top as --in DIRECTORY FILE. For each path
only the files above it are asked. At most 256 files, 65,536 bytes each, 262,144 together; above one path 64 files and 65,536 bytes.
LISTING: paths from the archive's top, one a line; a last / marks a directory.
A BOM in the listing is part of a path. So is the CR of a CRLF line end, and a path with a control byte is refused.
--fold: ASCII letters match in either case.

One line a path, with tabs between: the path, the answer and, where a line decided, the entry, the rule file and the line.
Answers: ignored, re-included, nothing; of an attribute set, unset, value V, unspecified, nothing; or refused N: reason.
A path, entry, value or file name that begins with a double quote is quoted as in C,
and so is a value, a file name or a refused path that holds a control byte.
What is wrong with the question itself is said on standard error, and then no path is answered; the status is 2.
A refused path is an answer: the status is 0.
";

pub fn help(rt: HostRuntime) {
    if let Err(e) = rt.write_all(HELP) {
        failed(rt, b"standard output", e);
    }
}

// Standard error is the last place to say anything: where that fails too, there is nobody to tell.
fn complain(rt: HostRuntime, s: &[u8]) {
    let _ = rt.stderr().write_all(s);
}

// One line on standard error: what is wrong with the arguments.
pub fn wrong(rt: HostRuntime, what: &[u8]) -> Said {
    complain(rt, b"whichline: ");
    complain(rt, what);
    complain(rt, b" (whichline --help)\n");
    Said
}

// One line on standard error: what is wrong with a file or a directory. Its name is quoted where it is empty or no plain field, so that a message
// stays one line. Its parts are written apart: where standard error has no room for one, the next may still be said.
// Never inlined: the answers do without the stack of its buffer.
#[inline(never)]
pub fn about(rt: HostRuntime, name: &[u8], what: &[u8]) -> Said {
    let mut buffer = io::large_buffer();
    let mut out = Out::new(&mut buffer);
    out.put(b"whichline: ");
    if name.is_empty() {
        out.put(b"\"\"");
    } else {
        out.put_field(name);
    }
    complain(rt, out.filled());
    complain(rt, b": ");
    complain(rt, what);
    complain(rt, b"\n");
    Said
}

// The words of an error without its number, which std puts behind them. (testtables has its like; the two programs share no crate for it.)
fn words(said: &str) -> &str {
    said.split_once(" (os error ")
        .map_or(said, |(front, _)| front)
}

// Without a heap, as `format!` would need it: writes the words of an error to the front of `out`, and answers how many bytes they have.
fn put_error(out: &mut [u8], e: Error) -> usize {
    let room = out.len();
    let mut rest = &mut *out;
    let _ = write!(rest, "{e}");
    room.saturating_sub(rest.len())
}

// One line on standard error: what a call of the system failed at, and why.
pub fn failed(rt: HostRuntime, what: &[u8], e: Error) -> Said {
    let mut said = [0u8; 256];
    let n = put_error(&mut said, e);
    match str::from_utf8(said.get(..n).unwrap_or(b"")) {
        Ok(text) => about(rt, what, words(text).as_bytes()),
        Err(_) => about(rt, what, b"failed"),
    }
}

// A refusal in words, as far as this program can get it: every file that is lent stands above the path.
#[tactic(auto, unfolding(crate::specs::Places::reason_length))]
pub fn put_reason(refusal: Refusal, out: &mut Out)
    ensures value { out.new ≡ after out.old (reason_length (number_of refusal)) }
    ensures onward { Onward out.old out.new }
{
    let words: &[u8] = match refusal {
        Refusal::BadPath =>
            b"the path is empty, over 4,096 bytes, holds a control byte (below 32, as the CR of a CRLF line end, or 127), has `/` first, last or doubled, or a component `.` or `..`",
        Refusal::BadLists => b"over 64 rule files stand above the path",
        Refusal::RulesLong => b"the rule files above the path have over 65,536 bytes together",
        Refusal::RulesHoldZero => b"byte 0 in a rule file above the path",
        Refusal::LineLong => b"a line of over 2,048 bytes in a rule file above the path",
        Refusal::BadName =>
            b"the attribute's name is empty, over 255 bytes, begins with `-`, or has a byte outside letters, digits, `-`, `.`, `_`",
        Refusal::TooLong | Refusal::HoldsZero | Refusal::FlagsHigh => b"flags above 3",
    };
    out.put(words);
}
