// Both questions over lent rule files: the lowest refusal, or else what the lines decide (verdicts). For a user: docs/RULES.md, "Answers".
#![tactic(auto)]

pub mod attribute;
pub mod ignore;
