// What the program writes. A report that cannot be written is lost: there is nowhere else to write it.
use crate::row::RowError;
use crate::tally::Tally;
use arrayvec::ArrayVec;
use std::io::{Error, Write};
use std::str;

// What a row says may be any bytes, so its fields are written as they are.
fn say(rt: HostRuntime, parts: &[&[u8]]) {
    for part in parts {
        let _ = rt.write_all(part);
    }
}

// An answer other than the row expects.
pub fn other_answer(rt: HostRuntime, label: &[u8], expected: &[u8], got: &[u8]) {
    say(
        rt,
        &[label, b": expected ", expected, b", got ", got, b"\n"],
    );
}

// An answer of the matcher other than the row expects in a mode.
pub fn other_mode(rt: HostRuntime, label: &[u8], mode: &str, expected: &[u8], got: &[u8]) {
    say(rt, &[label, b" ", mode.as_bytes()]);
    other_answer(rt, b"", expected, got);
}

// A row that was not run.
pub fn not_run(rt: HostRuntime, e: RowError, row: &[u8]) {
    match e {
        RowError::Malformed => say(rt, &[b"malformed: ", row, b"\n"]),
    }
}

// Numbers, each with what stands behind it.
fn counts(rt: HostRuntime, parts: &[(u64, &str)]) {
    for (number, behind) in parts {
        let _ = print!(rt; "{number}");
        say(rt, &[behind.as_bytes()]);
    }
}

pub fn section(rt: HostRuntime, name: &[u8], passed: u64, rows: u64) {
    say(rt, &[name, b": "]);
    counts(rt, &[(passed, "/"), (rows, "\n")]);
}

pub fn too_long(rt: HostRuntime, name: &str) {
    say(rt, &[b"too long: ", name.as_bytes(), b"\n"]);
}

// The words of an error without its number, which std puts behind them. (whichline has its like; the two programs share no crate for it.)
fn words(said: &str) -> &str {
    said.split_once(" (os error ")
        .map_or(said, |(front, _)| front)
}

// The words of an error have so many bytes at most.
const MOST_WORDS: usize = 256;

// Says on standard error that a file cannot be read, and why.
pub fn failed(rt: HostRuntime, name: &str, e: Error) {
    let mut said = ArrayVec::<u8, MOST_WORDS>::new();
    let _ = write!(said, "{e}");
    let why = str::from_utf8(said.as_slice()).map_or("failed", words);
    let _ = eprintln!(rt; "{name}: {why}");
}

pub fn totals(rt: HostRuntime, t: &Tally) {
    counts(
        rt,
        &[
            (t.malformed, " malformed\n"),
            (t.rows, " rows, "),
            (t.answers, " answers, "),
            (t.differ, " differ\n"),
        ],
    );
}
