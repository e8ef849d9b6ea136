// Bracket classes, as `[!a-z]` and `[[:digit:]]`: how their members are read and which bytes they accept. An engine asks a class about one byte at
// a time and reads it anew each time, so nothing is stored. For a user: docs/RULES.md, "Bracket classes".
#![tactic(auto)]

pub mod class;
mod members;
