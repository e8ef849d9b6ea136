// Rule files end to end in one lent buffer: a file's bytes, its BOM, the end of a line. The definitions beside it say what the lines of all files
// are and which of them decides; both questions stand on these. For a user: docs/RULES.md, "Rule files and lines".
#![tactic(auto)]

ghost use Rattle.std.specs.Prelude.{◌≡◌, ◌+◌, drop};
ghost use Rattle.rulefiles.specs.Decisions.{place_at};
ghost use Rattle.rulefiles.specs.RuleFiles.{bytes_between, bom_length, line_length};

use bytestrings::find_byte;

// Where a line stands: its file, counted from 0, and its number, from 1.
#[derive(Clone, Copy)]
pub struct Place {
    pub file: usize,
    pub line: usize,
}

// What was decided, and the place of the line that decided it.
#[derive(Clone, Copy)]
pub struct Decision<E> {
    pub what: E,
    pub place: Place,
}

// Rule files as they are lent: their bytes end to end, and of each file where it ends among them and its base, in two lists.
#[derive(Clone, Copy)]
pub struct RuleFiles<'a> {
    pub rules: &'a [u8],
    pub ends: &'a [usize],
    pub bases: &'a [usize],
}

// The place of a line, by its file's number and its own: whoever decides by a line takes its place from here.
pub fn line_place(file: usize, line: usize) -> Place
    ensures { result ≡ place_at file line }
{
    Place { file, line }
}

// The bytes of a file that lies in the rules from its start to its end. Numbers past the buffer give what of the file is in it.
pub fn file_part(rules: &[u8], start: usize, end: usize) -> &[u8]
    ensures { result.now ≡ bytes_between start end rules.now }
{
    match rules.get(start..end.min(rules.len())) {
        Some(part) => part,
        None => &rules[..0],
    }
}

// How many bytes of the file's start are its BOM.
#[tactic(auto, unfolding(crate::specs::RuleFiles::bom_length))]
pub fn bom_length(file: &[u8]) -> usize
    ensures { result ≡ bom_length file.now }
{
    match file {
        [0xEF, 0xBB, 0xBF, ..] => 3,
        _ => 0,
    }
}

// The place of the next newline from `at` on, or the file's end; past the end, `at` itself.
pub fn line_end(file: &[u8], at: usize) -> usize
    ensures { result ≡ at + line_length (drop at file.now) }
{
    find_byte(file, at, b'\n')
}
