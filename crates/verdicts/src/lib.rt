// What the lines decide, without refusals: an entry's verdict, an attribute's state, the rule from the top down, and the two answers. Both questions are
// their refusals and then this. For a user: docs/RULES.md, "Which line decides".
#![tactic(auto)]

pub mod attribute;
mod lines;
mod rule;
mod scan;
pub mod topdown;
