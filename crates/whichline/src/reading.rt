// Reading files and standard input.
ghost use Rattle.std.specs.Prelude.{◌≤◌, length, IfOk};

use crate::fields::Out;
use crate::messages;
use crate::messages::Said;
use std::env::Env;
use std::fs::File;
use std::io::{Error, ErrorKind, Read};
use std::str;

// std opens no file whose name is not UTF-8, so bin/whichline lends such a file by a link. Its name is the argument's number, in the folder
// that this variable names.
const LINKS: &str = "WHICHLINE_LINKS";

// Puts the name of the link of argument `i`: nothing where none is lent. Never inlined, as `open_link`.
#[inline(never)]
fn put_link(rt: HostRuntime, i: usize, out: &mut Out) {
    let mut folder = io::buffer();
    if let Ok(n) = rt.var(LINKS, &mut folder) {
        out.put(&folder[..n]);
        out.put(b"/");
        out.put_number(i as u64);
    }
}

// Opens the file of argument `i` by its link. Never inlined: other files are read without the stack of its buffers.
#[inline(never)]
fn open_link(rt: HostRuntime, i: usize) -> Result<File, Error> {
    let mut path = io::buffer();
    let mut out = Out::new(&mut path);
    put_link(rt, i, &mut out);
    match str::from_utf8(out.filled()) {
        Ok(link) if !link.is_empty() => File::open(&rt, link),
        _ => Err(Error::new(
            ErrorKind::InvalidFilename,
            "a name that is not UTF-8 is opened by bin/whichline alone",
        )),
    }
}

// Opens the file that argument `i` names.
fn open(rt: HostRuntime, i: usize, name: &[u8]) -> Result<File, Error> {
    match str::from_utf8(name) {
        Ok(text) => File::open(&rt, text),
        Err(_) => open_link(rt, i),
    }
}

// Reads once into `part` and answers how many bytes came, 0 at the end. Where the read fails, that is said of `what`.
pub fn read_some<R: Read>(
    rt: HostRuntime,
    from: &mut R,
    what: &[u8],
    part: &mut [u8],
) -> Result<usize, Said>
    ensures { IfOk result (λ n. n ≤ length part.new) }
{
    match from.read(part) {
        Ok(n) => Ok(n),
        Err(e) => Err(messages::failed(rt, what, e)),
    }
}

// Reads a file until it ends or `part` is full, and answers how many bytes came. Where a read fails, that is said of the file's name.
// (std reads to the end into a Vec alone, and this program has no heap, so the place is counted here.)
fn read_all(rt: HostRuntime, file: &mut File, name: &[u8], part: &mut [u8]) -> Result<usize, Said>
    ensures { IfOk result (λ n. n ≤ length part.new) }
{
    let mut at = 0;
    while at < part.len() {
        let n = read_some(rt, file, name, &mut part[at..])?;
        if n == 0 {
            break;
        }
        at += n;
    }
    Ok(at)
}

// The same for the file that argument `i` names; what is wrong with it is said.
pub fn read_file(rt: HostRuntime, i: usize, name: &[u8], part: &mut [u8]) -> Result<usize, Said>
    ensures { IfOk result (λ n. n ≤ length part.new) }
{
    match open(rt, i, name) {
        Ok(mut file) => read_all(rt, &mut file, name, part),
        Err(e) => Err(messages::failed(rt, name, e)),
    }
}
