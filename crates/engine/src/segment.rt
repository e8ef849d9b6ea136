// A segment: the items of one byte up to the next run or the pattern's end.
ghost use Rattle.engine.specs.inner.Outcomes.{Stops};

use patterns::Mode;
use patterns::items::item_takes;

// Where a segment stops: the pattern and the text end together; an item does not take the byte here, or the pattern ends first; the text
// ends first; or a run stands at a place of the pattern, and a place of the text was reached.
#[derive(Clone, Copy, Debug, PartialEq)]
pub enum Stop {
    Whole,
    Mismatch,
    TooShort,
    Run(usize, usize),
}

// Matches items of one byte from the front of p and t.
// (d) Two places are counted, since the answer is both and a step in p is an item's size: slices of what is left would be measured against p and t.
#[tactic(auto, using(crate::proofs::SegmentLaws::along_fits, crate::proofs::SegmentLaws::along_next, crate::proofs::SegmentLaws::along_run, crate::proofs::SegmentLaws::along_short, crate::proofs::SegmentLaws::along_mismatch, crate::proofs::SegmentLaws::along_whole))]
pub fn match_segment(p: &[u8], t: &[u8], m: Mode) -> Stop
    ensures { Stops m p.now t.now result }
{
    let mut i = 0;
    let mut j = 0;
    while i < p.len() {
        if p[i] == b'*' {
            return Stop::Run(i, j);
        }
        if t.len() <= j {
            return Stop::TooShort;
        }
        let Some(n) = item_takes(&p[i..], t[j], m) else {
            return Stop::Mismatch;
        };
        i += n;
        j += 1;
    }
    if j == t.len() {
        Stop::Whole
    } else {
        Stop::Mismatch
    }
}
