// The rows of a file, and what they came to.
ghost use Rattle.std.specs.Prelude.{◌≤◌, ◌≡◌};
ghost use Rattle.testtables.specs.Results.{nothing, Grown};

use crate::row::{Ran, RowError};
use crate::{fields, report};

#[derive(Drop)]
pub struct Tally {
    pub rows: u64,
    pub answers: u64,
    pub differ: u64,
    pub malformed: u64,
    // The rows of the present section, and those of them whose answers are as expected.
    pub section_rows: u64,
    pub section_passed: u64,
}

// Whether a line is a row: neither empty nor a comment, and no file that rows lend.
fn is_row(line: &[u8]) -> bool {
    !matches!(line, [] | [b'#' | b'=', ..])
}

// The sums stop at the largest number. The rows of a few files come nowhere near it.
impl Tally {
    // Nothing is counted yet.
    pub fn new() -> Tally
        ensures { result ≡ nothing }
    {
        Tally {
            rows: 0,
            answers: 0,
            differ: 0,
            malformed: 0,
            section_rows: 0,
            section_passed: 0,
        }
    }

    fn add(&mut self, ran: Ran)
        ensures { Grown self.old self.new }
    {
        self.answers = self.answers.saturating_add(ran.answers);
        self.differ = self.differ.saturating_add(ran.differ);
        if ran.differ == 0 {
            self.section_passed = self.section_passed.saturating_add(1);
        }
    }

    // Counts a row by what it came to.
    fn count(&mut self, rt: HostRuntime, row: &[u8], outcome: Result<Ran, RowError>)
        ensures { Grown self.old self.new }
    {
        self.rows = self.rows.saturating_add(1);
        self.section_rows = self.section_rows.saturating_add(1);
        match outcome {
            Ok(ran) => self.add(ran),
            Err(e) => {
                report::not_run(rt, e, row);
                self.malformed = self.malformed.saturating_add(1);
            }
        }
    }

    // Writes the line of a section, if any row of it was counted, and starts another.
    fn end_section(&mut self, rt: HostRuntime, name: &[u8])
        ensures { Grown self.old self.new }
    {
        if self.section_rows > 0 {
            report::section(rt, name, self.section_passed, self.section_rows);
        }
        self.section_rows = 0;
        self.section_passed = 0;
    }

    // Ends the last section where that of a row is another.
    fn begin(&mut self, rt: HostRuntime, last: &[u8], own: &[u8])
        ensures { Grown self.old self.new }
    {
        if last != own {
            self.end_section(rt, last);
        }
    }

    // Runs the rows of a file, one a line, each by `run`, which gets the whole file too.
    pub fn run_rows<F: Fn(&[u8], &[u8]) -> Result<Ran, RowError>>(
        &mut self,
        rt: HostRuntime,
        sheet: &[u8],
        run: F,
    )
        requires { F.IsAlwaysCallable run }
        ensures { Grown self.old self.new }
    {
        let mut last = sheet;
        let mut rest = sheet;
        while !rest.is_empty() {
            let end = rest.iter().position(|b| *b == b'\n').unwrap_or(rest.len());
            let row = &rest[..end];
            if is_row(row) {
                self.begin(
                    rt,
                    fields::section(&last[..last.len() - rest.len()]),
                    fields::section(row),
                );
                self.count(rt, row, run(sheet, row));
                last = rest;
            }
            rest = rest.get(end + 1..).unwrap_or(b"");
        }
        self.end_section(rt, fields::section(last));
    }
}
