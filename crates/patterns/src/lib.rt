// How a pattern is read: its items and its runs of stars; and what each item may take. The definitions say when a pattern matches a text; an engine
// decides it (engine), over these leaves. Everything here works on any bytes. For a user: docs/RULES.md, "Patterns".
#![tactic(auto)]

pub mod items;
pub mod runs;

// The two modes of a match.
#[derive(Clone, Copy, Debug, PartialEq)]
pub struct Mode {
    pub path: bool,
    pub fold: bool,
}
