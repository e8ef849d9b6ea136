// The rule files that a row lends. A sheet of rows says each once, on a line `=NAME`, a tab and its bytes; a row lends it as
// `DIRECTORY=NAME`.
ghost use Rattle.std.specs.Prelude.{◌≡◌, ◌≤◌, []};
ghost use Rattle.arrayvec.specs.ArrayVec.{array_vec_len};
ghost use Rattle.testtables.specs.Results.{last_end};

use crate::fields;
use crate::fields::MOST_BYTES;
use crate::row::RowError;
use arrayvec::ArrayVec;
use rulefiles::RuleFiles;

// So many files are lent at most.
const MOST_FILES: usize = 70;

// The lent files end to end, where each ends, and the length of the directory of each, which is its base.
#[derive(Drop)]
pub struct Lent {
    rules: ArrayVec<u8, MOST_BYTES>,
    ends: ArrayVec<usize, MOST_FILES>,
    bases: ArrayVec<usize, MOST_FILES>,
    ghost paired: { array_vec_len bases ≡ array_vec_len ends },
    ghost filled: { array_vec_len rules ≡ last_end ends.items },
    ghost few: { array_vec_len ends ≤ 70 },
    ghost fitting: { array_vec_len rules ≤ 4096 },
}

impl Lent {
    // No file is lent yet.
    pub fn nothing() -> Lent
        ensures { (result.rules.items ≡ []) × (result.ends.items ≡ []) × (result.bases.items ≡ []) }
    {
        Lent {
            rules: ArrayVec::new(),
            ends: ArrayVec::new(),
            bases: ArrayVec::new(),
        }
    }

    pub fn files(&self) -> RuleFiles
        ensures { (result.rules.now ≡ self.now.rules.items) × (result.ends.now ≡ self.now.ends.items) × (result.bases.now ≡ self.now.bases.items) }
    {
        RuleFiles {
            rules: self.rules.as_slice(),
            ends: self.ends.as_slice(),
            bases: self.bases.as_slice(),
        }
    }
}

// A piece without the byte that ends it, if it has one.
fn without_end(piece: &[u8], end: u8) -> &[u8] {
    match piece {
        [front @ .., last] if *last == end => front,
        _ => piece,
    }
}

// What a line says of the file with this name, behind the `=` that it begins with: what stands behind the name and a tab. Where the sheet ends there,
// nothing is said.
fn defined<'a>(said: &'a [u8], name: &[u8]) -> Option<&'a [u8]> {
    let [b'\t', bytes @ ..] = said.strip_prefix(name)? else {
        return None;
    };
    let end = bytes
        .iter()
        .position(|b| *b == b'\n')
        .unwrap_or(bytes.len());
    (!bytes.is_empty()).then_some(&bytes[..end])
}

// What the first line of the sheet that says the file with this name says of it. From one `=` to the next, since a sheet may have many short lines.
fn said_of<'a>(sheet: &'a [u8], name: &[u8]) -> Option<&'a [u8]> {
    let mut rest = sheet;
    let mut begins = true;
    while let Some(at) = rest.iter().position(|b| *b == b'=') {
        let behind = &rest[at + 1..];
        if rest[..at].last().map_or(begins, |b| *b == b'\n') {
            if let Some(bytes) = defined(behind, name) {
                return Some(bytes);
            }
        }
        rest = behind;
        begins = false;
    }
    None
}

// Lends a file of a row, behind those before it, if there is room for it.
fn lend_file(
    sheet: &[u8],
    file: &[u8],
    bytes: &mut ArrayVec<u8, MOST_BYTES>,
    lent: &mut Lent,
) -> Result<(), RowError> {
    let sign = file
        .iter()
        .position(|b| *b == b'=')
        .ok_or(RowError::Malformed)?;
    let name = &file[sign + 1..];
    let field = said_of(sheet, name).ok_or(RowError::Malformed)?;
    fields::decode(field, bytes)?;
    // Asked before the rules grow: what is lent stays whole where there is no room for one end more.
    if lent.ends.is_full() {
        return Err(RowError::Malformed);
    }
    lent.rules.try_extend_from_slice(bytes.as_slice())?;
    lent.ends.try_push(lent.rules.len())?;
    lent.bases.try_push(sign)?;
    Ok(())
}

// Lends the files of a row, with a space between two. The bytes of each are put into `bytes` first.
pub fn lend(
    sheet: &[u8],
    files: &[u8],
    bytes: &mut ArrayVec<u8, MOST_BYTES>,
    lent: &mut Lent,
) -> Result<(), RowError> {
    for piece in files.split_inclusive(|b| *b == b' ') {
        lend_file(sheet, without_end(piece, b' '), bytes, lent)?;
    }
    Ok(())
}
