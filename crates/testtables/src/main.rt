// Runs the tables of documents 001 and 01 that data/ holds, those of the matcher in its four modes, and compares the answers.
// Writes each answer that differs, what passed of each section, and the totals.
#![tactic(auto)]

ghost use Rattle.std.specs.Prelude.{◌≤◌, length};

use std::fs::File;
use std::io::Read;

mod fields;
mod lend;
mod question;
mod report;
mod row;
mod tally;
mod written;

use crate::row::{Ran, RowError};
use crate::tally::Tally;

// A file of so many bytes is not run: it may go on behind them.
const TOO_LONG: usize = 65536;

// Reads what a file holds up to its end, to where it is too long, or to where it cannot be read, and says how many bytes came.
fn read_front(file: &mut File, front: &mut [u8]) -> usize
    ensures { result ≤ length front.new }
{
    let mut read = 0;
    while read < front.len() {
        let more = file.read(&mut front[read..]).unwrap_or(0);
        if more == 0 {
            break;
        }
        read += more;
    }
    read
}

// Runs each row of a file by `run`, which gets the whole file too. Never inlined: its buffer is on the stack only while a file is run.
#[inline(never)]
fn run_open<F: Fn(&[u8], &[u8]) -> Result<Ran, RowError>>(
    rt: HostRuntime,
    name: &str,
    file: &mut File,
    tally: &mut Tally,
    run: F,
)
    requires { F.IsAlwaysCallable run }
{
    let mut front = [0; TOO_LONG];
    let read = read_front(file, &mut front);
    if read == TOO_LONG {
        report::too_long(rt, name);
    } else {
        tally.run_rows(rt, &front[..read], run);
    }
}

// Runs the file of a name.
fn run_file<F: Fn(&[u8], &[u8]) -> Result<Ran, RowError>>(
    rt: HostRuntime,
    name: &str,
    tally: &mut Tally,
    run: F,
)
    requires { F.IsAlwaysCallable run }
{
    match File::open(&rt, name) {
        Ok(mut file) => run_open(rt, name, &mut file, tally, run),
        Err(e) => report::failed(rt, name, e),
    }
}

// The tables of the matcher. Document 001's have no third answer: broken is 0 there (02, R-14).
const MATCHES: [(&str, bool); 2] = [("document-001.tsv", true), ("document-01.tsv", false)];

fn run_matches(rt: HostRuntime, tally: &mut Tally) {
    for (name, lenient) in MATCHES {
        run_file(rt, name, tally, |_, row| row::run(rt, row, lenient));
    }
}

// The tables of the questions.
const QUESTIONS: [&str; 2] = ["ignore.tsv", "attributes.tsv"];

fn run_questions(rt: HostRuntime, tally: &mut Tally) {
    for name in QUESTIONS {
        run_file(rt, name, tally, |sheet, row| question::run(rt, sheet, row));
    }
}

fn main(rt: HostRuntime) {
    let mut tally = Tally::new();
    run_matches(rt, &mut tally);
    run_questions(rt, &mut tally);
    report::totals(rt, &tally);
}
