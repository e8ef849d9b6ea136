// The rule files that the arguments give, lowest first: each file's bytes, the directory that it stands in, and which argument names it.
ghost use Rattle.std.specs.Prelude.{◌≡◌, ◌<◌, ◌≤◌, IfOk, false, take};
ghost use Rattle.entries.specs.Entries.{without_last_slash};

use crate::messages::Said;
use crate::{arguments, buffers, messages, reading};
use lending::Parts;

// The files and the directories so far, each end to end at the front of its buffer, by their ends; which argument names each file; and whether case is
// folded. These are arrays with their lengths beside them, since the program uses no heap.
#[derive(Drop)]
pub struct Given {
    files: [u8; 262145],
    file_ends: [usize; 256],
    directories: [u8; 65536],
    directory_ends: [usize; 256],
    names: [usize; 256],
    count: usize,
    bytes: usize,
    directory_bytes: usize,
    fold: bool,
    ghost counted: { count ≤ 256 },
    ghost files_held: { bytes ≤ 262145 },
    ghost directories_held: { directory_bytes ≤ 65536 },
}

// A directory of the archive without its last slash, which may be given or not. (A slice pattern, as for a line's CR: no function of the byte is shorter.)
#[tactic(auto, using(crate::proofs::SlashLaws::nothing_kept, crate::proofs::SlashLaws::slash_goes, crate::proofs::SlashLaws::other_stays))]
pub fn without_slash(directory: &[u8]) -> &[u8]
    ensures { result.now ≡ without_last_slash directory.now }
{
    match directory {
        [bare @ .., b'/'] => bare,
        _ => directory,
    }
}

// Says so if argument `i` begins like an option, since it is none that is known.
fn no_option(rt: HostRuntime, i: usize) -> Result<(), Said> {
    let mut buffer = io::buffer();
    match arguments::get(rt, i, &mut buffer) {
        Some(word) if word.starts_with(b"--") => Err(messages::about(
            rt,
            word,
            b"an option that is not known (whichline --help)",
        )),
        _ => Ok(()),
    }
}

impl Given {
    // No file is given yet.
    pub fn none() -> Given
        ensures { (result.count ≡ 0) × (result.bytes ≡ 0) × (result.directory_bytes ≡ 0) × (result.fold ≡ false) }
    {
        Given {
            files: buffers::rules(),
            file_ends: buffers::numbers(),
            directories: io::large_buffer(),
            directory_ends: buffers::numbers(),
            names: buffers::numbers(),
            count: 0,
            bytes: 0,
            directory_bytes: 0,
            fold: false,
        }
    }

    pub fn files(&self) -> Parts
        ensures { (result.bytes.now ≡ self.now.files) × (result.ends.now ≡ take self.now.count self.now.file_ends) }
    {
        Parts {
            bytes: &self.files,
            ends: &self.file_ends[..self.count],
        }
    }

    pub fn directories(&self) -> Parts
        ensures { (result.bytes.now ≡ self.now.directories) × (result.ends.now ≡ take self.now.count self.now.directory_ends) }
    {
        Parts {
            bytes: &self.directories,
            ends: &self.directory_ends[..self.count],
        }
    }

    pub fn names(&self) -> &[usize]
        ensures { result.now ≡ take self.now.count self.now.names }
    {
        &self.names[..self.count]
    }

    pub fn folds(&self) -> bool
        ensures { result ≡ self.now.fold }
    {
        self.fold
    }

    // Puts the rule file that argument `i` names behind those before it, and answers where it ends.
    fn put_file(&mut self, rt: HostRuntime, i: usize) -> Result<usize, Said>
        ensures { IfOk result (λ end. end ≤ 262145) }
    {
        let mut word = io::buffer();
        let Some(name) = arguments::get(rt, i, &mut word) else {
            return Err(messages::wrong(rt, b"a rule file is missing, or its name is too long"));
        };
        let start = self.bytes;
        let n = reading::read_file(rt, i, name, &mut self.files[start..])?;
        let end = start + n;
        if questionrefusals::rules::rules_long(&self.files[start..end]) {
            return Err(messages::about(rt, name, b"over 65,536 bytes"));
        }
        if end == self.files.len() {
            return Err(messages::about(rt, name, b"with the files before it, over 262,144 bytes"));
        }
        Ok(end)
    }

    // Puts a directory and a slash behind those before it, and answers where it ends.
    fn put_directory(&mut self, rt: HostRuntime, directory: &[u8]) -> Result<usize, Said>
        ensures { IfOk result (λ end. end ≤ 65536) }
    {
        let bare = without_slash(directory);
        if paths::path_bad(bare) {
            return Err(messages::about(
                rt,
                directory,
                b"no directory of the archive: give it from the archive's top, as `sky/north`, and without control bytes",
            ));
        }
        let start = self.directory_bytes;
        if self.directories.len() - start <= bare.len() {
            return Err(messages::wrong(rt, b"the directories have over 65,536 bytes together"));
        }
        let end = start + bare.len();
        self.directories[start..end].copy_from_slice(bare);
        self.directories[end] = b'/';
        Ok(end + 1)
    }

    // The same for the directory that an argument names; at the top, where none does, there is nothing to put.
    fn put_named(&mut self, rt: HostRuntime, argument: Option<usize>) -> Result<usize, Said>
        ensures { IfOk result (λ end. end ≤ 65536) }
    {
        let Some(i) = argument else {
            return Ok(self.directory_bytes);
        };
        let mut word = io::buffer();
        let Some(directory) = arguments::get(rt, i, &mut word) else {
            return Err(messages::wrong(rt, b"the directory after `--in` is missing or too long"));
        };
        self.put_directory(rt, directory)
    }

    // Takes one rule file more: its name is argument `i`, and an argument names its directory if it does not stand at the top.
    fn take_file(
        &mut self,
        rt: HostRuntime,
        i: usize,
        directory: Option<usize>,
    ) -> Result<(), Said> {
        let k = self.count;
        if k == self.names.len() {
            return Err(messages::wrong(rt, b"over 256 rule files"));
        }
        let directory_end = self.put_named(rt, directory)?;
        let end = self.put_file(rt, i)?;
        self.file_ends[k] = end;
        self.directory_ends[k] = directory_end;
        self.names[k] = i;
        self.count = k + 1;
        self.bytes = end;
        self.directory_bytes = directory_end;
        Ok(())
    }

    // Takes argument `i` of `n`, and what belongs to it, and answers which comes next.
    fn take_next(&mut self, rt: HostRuntime, n: usize, i: usize) -> Result<usize, Said>
        requires { i < n }
        ensures { IfOk result (λ next. i < next) }
    {
        if arguments::is(rt, i, b"--fold") {
            self.fold = true;
            return Ok(i + 1);
        }
        if !arguments::is(rt, i, b"--in") {
            no_option(rt, i)?;
            self.take_file(rt, i, None)?;
            return Ok(i + 1);
        }
        if n - i < 3 || arguments::is_option(rt, i + 1) || arguments::is_option(rt, i + 2) {
            return Err(messages::wrong(rt, b"`--in` wants a directory and a rule file"));
        }
        self.take_file(rt, i + 2, Some(i + 1))?;
        Ok(i + 3)
    }

    // Takes all arguments from `first` on.
    pub fn take_all(&mut self, rt: HostRuntime, first: usize) -> Result<(), Said> {
        let n = arguments::count(rt);
        let mut i = first;
        while i < n {
            i = self.take_next(rt, n, i)?;
        }
        if self.count == 0 {
            return Err(messages::wrong(rt, b"no rule file is given"));
        }
        Ok(())
    }
}
