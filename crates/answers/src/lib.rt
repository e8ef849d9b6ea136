// What the two questions answer: the complete answer of each, as a type, and the number that C gets for it. Whoever answers a question, of lent files or
// otherwise, answers in these. For a user: docs/RULES.md, "Answers".
#![tactic(auto)]

ghost use Rattle.std.specs.Prelude.{◌≡◌, ◌+◌, ℕ, Ok, IfOk, IfErr};
ghost use Rattle.answers.specs.Complete.{state_number, refusal, complete_ignore, complete_attribute};

use attributelines::State;
use ignorelines::Verdict;
use refusals::Refusal;
use rulefiles::Decision;

// The entry that was decided, by its length, and the decision on it.
#[derive(Clone, Copy)]
pub struct DecidedEntry {
    pub length: usize,
    pub decision: Decision<Verdict>,
}

// What the ignore question answers: none where no line decided.
pub type IgnoreAnswer = Result<Option<DecidedEntry>, Refusal>;

// What the attribute question answers.
pub type AttributeAnswer = Result<Option<Decision<State>>, Refusal>;

// The number that C gets for a refusal, by its number in the table.
fn refusal_code(number: u8) -> u32
    ensures { result ≡ (refusal number).number }
{
    16 + u32::from(number)
}

// The number that C gets for an answer of the ignore question; a refusal is told by whatever has a number.
#[tactic(auto, unfolding(crate::specs::Complete::complete_ignore))]
pub fn ignore_code<R: Into<u8>>(answer: Result<Option<DecidedEntry>, R>) -> u32
    ensures decided { IfOk answer (λ decided. result ≡ (complete_ignore (Ok decided)).number) }
    ensures refused { IfErr answer (λ refused. (number : ℕ) × R.converts refused number × (result ≡ (refusal number).number)) }
{
    match answer {
        Ok(None) => 0,
        Ok(Some(entry)) => match entry.decision.what {
            Verdict::Ignored => 1,
            Verdict::Reincluded => 2,
        },
        Err(refusal) => refusal_code(refusal.into()),
    }
}

// The number that C gets for a state.
#[tactic(auto, unfolding(crate::specs::Complete::state_number))]
fn state_code(state: State) -> u32
    ensures { result ≡ state_number state }
{
    match state {
        State::Set => 1,
        State::Unset => 2,
        State::Value(_) => 3,
        State::Unspecified => 4,
    }
}

// The number that C gets for an answer of the attribute question. (The two have an arm in common, and that is `refusal_code`.)
#[tactic(auto, unfolding(crate::specs::Complete::complete_attribute))]
pub fn attribute_code<R: Into<u8>>(answer: Result<Option<Decision<State>>, R>) -> u32
    ensures decided { IfOk answer (λ decided. result ≡ (complete_attribute (Ok decided)).number) }
    ensures refused { IfErr answer (λ refused. (number : ℕ) × R.converts refused number × (result ≡ (refusal number).number)) }
{
    match answer {
        Ok(None) => 0,
        Ok(Some(decision)) => state_code(decision.what),
        Err(refused) => refusal_code(refused.into()),
    }
}
