// Items that take one byte.
ghost use Rattle.std.specs.Prelude.{◌≡◌};
ghost use Rattle.patterns.specs.Sharing.{inside};
ghost use Rattle.classes.specs.Members.{read_class};
ghost use Rattle.patterns.specs.Patterns.{read_bracket};
ghost use Rattle.patterns.specs.Items.{is_literal, taken_by, taken};

use crate::Mode;
use bytestrings::letters::same_letter;
use classes::class::test_class;

// Whether x may be taken by what takes any byte, in path mode any but `/`.
#[tactic(auto, unfolding(crate::specs::Sharing::inside))]
pub fn is_inside(x: u8, m: Mode) -> bool
    ensures { result ≡ inside m x }
{
    !(m.path && x == b'/')
}

// The size of the class that begins with `[` before q, where it accepts x. It stays a call, so that `?` and escapes save no registers for it.
#[inline(never)]
#[tactic(auto, using(crate::proofs::ItemLaws::class_outside, crate::proofs::ItemLaws::class_none, crate::proofs::ItemLaws::class_some, crate::proofs::ItemLaws::class_fits))]
fn class_takes(q: &[u8], x: u8, m: Mode) -> Option<usize>
    ensures { result ≡ taken_by m x (read_bracket (read_class q.now)) }
{
    if !is_inside(x, m) {
        return None;
    }
    let class = test_class(q, x, m.fold)?;
    class.accepts.then_some(class.size + 1)
}

// What `item_takes` answers, for the items that are no literals.
// (b) Apart from `item_takes`, so that the loop over literals stays small: as one function, 001's rows took x1.04 and crossing runs x1.20 the instructions.
#[tactic(auto, unfolding(crate::specs::Items::taken, crate::specs::Items::taken_by, crate::specs::Patterns::read_item, crate::specs::Patterns::read_run, crate::specs::Sharing::accepts))]
pub fn other_takes(p: &[u8], x: u8, m: Mode) -> Option<usize>
    ensures { result ≡ taken m p.now x }
{
    match p {
        [b'\\', rest @ ..] => match rest {
            [c, ..] => same_letter(*c, x, m.fold).then_some(2),
            [] => None,
        },
        [b'?', ..] => is_inside(x, m).then_some(1),
        [b'[', rest @ ..] => class_takes(rest, x, m),
        [] | [b'*', ..] => None,
        [c, ..] => same_letter(*c, x, m.fold).then_some(1),
    }
}

// Whether the byte stands for itself as an item.
#[tactic(auto, unfolding(crate::specs::Items::is_literal))]
pub fn is_literal(c: u8) -> bool
    ensures { result ≡ is_literal c }
{
    !matches!(c, b'*' | b'?' | b'[' | b'\\')
}

// How many bytes the first item of p is written with, where it is of one byte and accepts x.
// Literals are the commonest items, and the test of the others is a call of its own.
#[tactic(auto, unfolding(crate::specs::Items::taken, crate::specs::Items::taken_by, crate::specs::Items::is_literal, crate::specs::Patterns::read_item, crate::specs::Sharing::accepts))]
pub fn item_takes(p: &[u8], x: u8, m: Mode) -> Option<usize>
    ensures { result ≡ taken m p.now x }
{
    match p {
        [] => None,
        [c, ..] if is_literal(*c) => same_letter(*c, x, m.fold).then_some(1),
        _ => other_takes(p, x, m),
    }
}
