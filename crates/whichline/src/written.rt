// An answer, written: its word, and where a line decided, the entry, the rule file and the line's number.
ghost use Rattle.refusals.specs.Numbers.{number_of};
ghost use Rattle.whichline.specs.Places.{Onward, AfterRefusal, AfterIgnore, AfterAttribute};

use crate::fields::Out;
use crate::{arguments, messages};
use answers::{AttributeAnswer, DecidedEntry, IgnoreAnswer};
use attributelines::State;
use ignorelines::Verdict;
use refusals::Refusal;
use rulefiles::{Decision, Place};

// What an answer is about: the path as the listing has it, the lent rules, which of the given files each lent file is, and which argument names
// each of those.
#[derive(Clone, Copy)]
pub struct Asked<'a> {
    pub line: &'a [u8],
    pub rules: &'a [u8],
    pub numbers: &'a [usize],
    pub names: &'a [usize],
}

// Puts the name of the rule file that argument `i` names.
fn put_name(rt: HostRuntime, out: &mut Out, i: usize)
    ensures { Onward out.old out.new }
{
    let mut word = io::buffer();
    let name = arguments::get(rt, i, &mut word).unwrap_or(b"");
    out.put_field(name);
}

// Puts a refusal: its number and its reason.
#[tactic(auto, using(crate::proofs::PlaceLaws::refusal_put))]
fn put_refusal(out: &mut Out, refusal: Refusal)
    ensures { AfterRefusal out.old (number_of refusal) out.new }
{
    out.put(b"refused ");
    out.put_number(u64::from(u8::from(refusal)));
    out.put(b": ");
    messages::put_reason(refusal, out);
}

impl<'a> Asked<'a> {
    // Puts the rule file and the line, each after a tab.
    fn put_place(&self, rt: HostRuntime, out: &mut Out, place: Place)
        ensures { Onward out.old out.new }
    {
        let Some(&number) = self.numbers.get(place.file) else {
            return;
        };
        let Some(&name) = self.names.get(number) else {
            return;
        };
        out.put(b"\t");
        put_name(rt, out, name);
        out.put(b"\t");
        out.put_number(place.line as u64);
    }

    // Puts the entry that an answer is about, after a tab, and the place of the line that decided.
    fn put_entry(&self, rt: HostRuntime, out: &mut Out, entry: &[u8], place: Place)
        ensures { Onward out.old out.new }
    {
        out.put(b"\t");
        out.put_field(entry);
        self.put_place(rt, out, place);
    }

    // Puts the verdict and the entry that it is about. An entry above the path is a directory; the path is as the listing has it.
    fn put_decided(&self, rt: HostRuntime, out: &mut Out, decided: DecidedEntry)
        ensures { Onward out.old out.new }
    {
        let n = decided.length;
        let entry = if n < self.line.len() {
            &self.line[..n + 1]
        } else {
            self.line
        };
        match decided.decision.what {
            Verdict::Ignored => out.put(b"ignored"),
            Verdict::Reincluded => out.put(b"re-included"),
        }
        self.put_entry(rt, out, entry, decided.decision.place);
    }

    // Puts an answer of the ignore question.
    pub fn put_ignore(&self, rt: HostRuntime, out: &mut Out, answer: IgnoreAnswer)
        ensures { AfterIgnore out.old answer out.new }
    {
        match answer {
            Ok(None) => out.put(b"nothing"),
            Ok(Some(decided)) => self.put_decided(rt, out, decided),
            Err(refusal) => put_refusal(out, refusal),
        }
    }

    // Puts a state, a value with its bytes, which lie in the rules.
    fn put_state(&self, out: &mut Out, state: State)
        ensures { Onward out.old out.new }
    {
        match state {
            State::Set => out.put(b"set"),
            State::Unset => out.put(b"unset"),
            State::Value(v) => {
                out.put(b"value ");
                let behind = self.rules.get(v.start..);
                if let Some(value) = behind.and_then(|bytes| bytes.get(..v.length)) {
                    out.put_field(value);
                }
            }
            State::Unspecified => out.put(b"unspecified"),
        }
    }

    // Puts the state; the entry is the path itself.
    fn put_decided_state(&self, rt: HostRuntime, out: &mut Out, decided: Decision<State>)
        ensures { Onward out.old out.new }
    {
        self.put_state(out, decided.what);
        self.put_entry(rt, out, self.line, decided.place);
    }

    // Puts an answer of the attribute question.
    pub fn put_attribute(&self, rt: HostRuntime, out: &mut Out, answer: AttributeAnswer)
        ensures { AfterAttribute out.old answer out.new }
    {
        match answer {
            Ok(None) => out.put(b"nothing"),
            Ok(Some(decided)) => self.put_decided_state(rt, out, decided),
            Err(refusal) => put_refusal(out, refusal),
        }
    }
}
