// What the pattern of a line is matched against: an entry, as the lines of one rule file see it.
ghost use Rattle.std.specs.Prelude.{◌≡◌};
ghost use Rattle.entries.specs.Entries.{subject_in, subjects_in, subject_of, in_file, component_start};

// The entry from the file's base on, its last component, whether it is a directory, and whether case is folded.
#[derive(Clone, Copy)]
pub struct Subject<'a> {
    pub rest: &'a [u8],
    pub component: &'a [u8],
    pub directory: bool,
    pub fold: bool,
}

// Where the last component of an entry starts.
pub fn component_start(entry: &[u8]) -> usize
    ensures { result ≡ component_start entry.now }
{
    match entry.iter().rposition(|&b| b == b'/') {
        Some(slash) => slash + 1,
        None => 0,
    }
}

impl<'a> Subject<'a> {
    // An entry, as the lines of a file at the top see it.
    #[tactic(auto, using(crate::proofs::SubjectLaws::start_fits))]
    pub fn of(entry: &'a [u8], directory: bool, fold: bool) -> Subject<'a>
        ensures { subject_in result ≡ subject_of fold 0 (record { bytes = entry.now; directory = directory }) }
    {
        Subject {
            rest: entry,
            component: &entry[component_start(entry)..],
            directory,
            fold,
        }
    }

    // The same entry, as the lines of a file with this base see it, if the file applies to it.
    #[tactic(auto, using(crate::proofs::SubjectLaws::in_file_none))]
    pub fn in_file(&self, base: usize) -> Option<Subject<'a>>
        ensures { subjects_in result ≡ in_file base (subject_in self.now) }
    {
        if base < self.rest.len() {
            Some(Subject {
                rest: &self.rest[base..],
                component: self.component,
                directory: self.directory,
                fold: self.fold,
            })
        } else {
            None
        }
    }
}
