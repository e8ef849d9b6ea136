// When a question is refused: the lists (2), the number of rule bytes (3), the lines of one file and of all (5), each condition a leaf with its own
// contract over what it needs; and the lowest refusal of each question, with the path's (paths), byte 0 and the flags (refusals) and the name's
// (attributenames). For a user: docs/RULES.md, "Limits and refusals".
#![tactic(auto)]

pub mod lists;
pub mod lowest;
pub mod rules;
