// Which of many rule files are lent for a path: those that stand above it, end to end and in their order. It serves the command-line program and is no
// part of the base. For a user: docs/RULES.md, "Rule files and lines".
#![tactic(auto)]

ghost use Rattle.std.specs.Prelude.{◌≡◌};
ghost use Rattle.lending.specs.Lending.{parts, above, lend_one, lists, Lends, SameBuffers};
ghost use Rattle.lending.specs.inner.Room.{Within, taken};

use rulefiles::file_part;

// Byte strings that lie end to end, by their ends.
#[derive(Clone, Copy)]
pub struct Parts<'a> {
    pub bytes: &'a [u8],
    pub ends: &'a [usize],
}

// The buffers that the lists of a question are lent in: the rules, their files' ends and bases, and which of the given files each is.
#[derive(Drop)]
pub struct Buffers<'a> {
    pub rules: &'a mut [u8],
    pub ends: &'a mut [usize],
    pub bases: &'a mut [usize],
    pub numbers: &'a mut [usize],
}

// How many files are lent, and how many bytes they have together.
#[derive(Clone, Copy, Debug, PartialEq, Eq)]
pub struct Lent {
    pub files: usize,
    pub bytes: usize,
}

// There is no room for the lists in the buffers.
#[derive(Clone, Copy, Debug, PartialEq, Eq)]
pub struct Full;

// Whether a file in this directory stands above the path: the path is the directory, with its slash, and more.
#[tactic(auto, using(crate::proofs::AboveLaws::above_longer, crate::proofs::AboveLaws::above_no_longer))]
pub fn stands_above(directory: &[u8], path: &[u8]) -> bool
    ensures { result ≡ above directory.now path.now }
{
    path.len() > directory.len() && path.starts_with(directory)
}

// Lends one file more, if it stands above the path.
#[tactic(auto, using(crate::proofs::LendLaws::not_lent, crate::proofs::LendLaws::no_rules, crate::proofs::LendLaws::no_ends, crate::proofs::LendLaws::no_bases, crate::proofs::LendLaws::no_numbers), unfolding(crate::specs::inner::Room::Within))]
fn lend_file(
    path: &[u8],
    number: usize,
    directory: &[u8],
    file: &[u8],
    lent: Lent,
    buffers: &mut Buffers,
) -> Result<Lent, Full>
    requires { Within lent buffers.old }
    ensures lends { Lends (lend_one path.now number directory.now file.now (taken lent buffers.old)) result buffers.new }
    ensures same_buffers { SameBuffers buffers.old buffers.new }
{
    if !stands_above(directory, path) {
        return Ok(lent);
    }
    let at = lent.bytes;
    let n = lent.files;
    if buffers.rules.len() - at < file.len()
        || buffers.ends.len() <= n
        || buffers.bases.len() <= n
        || buffers.numbers.len() <= n
    {
        return Err(Full);
    }
    let end = at + file.len();
    buffers.rules[at..end].copy_from_slice(file);
    buffers.ends[n] = end;
    buffers.bases[n] = directory.len();
    buffers.numbers[n] = number;
    Ok(Lent {
        files: n + 1,
        bytes: end,
    })
}

// Lends the files that stand above the path, out of `files`; of the directories that they stand in each has its last slash. What is lent is put
// at the front of the buffers, as the questions take it; `numbers` says which of the given files each is. It serves the command-line program and
// is no part of the base: what stands behind the lists, and in all four buffers where the answer is `Full`, is free.
pub fn lend(
    path: &[u8],
    directories: Parts,
    files: Parts,
    buffers: &mut Buffers,
) -> Result<Lent, Full>
    ensures lends { Lends (lists path.now (parts directories.entry.bytes.now directories.entry.ends.now) (parts files.entry.bytes.now files.entry.ends.now)) result buffers.new }
    ensures same_buffers { SameBuffers buffers.old buffers.new }
{
    let mut lent = Lent { files: 0, bytes: 0 };
    let mut directory_start = 0;
    let mut file_start = 0;
    for (i, (&file_end, &directory_end)) in files.ends.iter().zip(directories.ends).enumerate() {
        let directory = file_part(directories.bytes, directory_start, directory_end);
        let file = file_part(files.bytes, file_start, file_end);
        lent = lend_file(path, i, directory, file, lent, buffers)?;
        directory_start = directory_end;
        file_start = file_end;
    }
    Ok(lent)
}
