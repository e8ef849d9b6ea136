// A whole class: read to its `]`, with a byte tested against it on the way.
ghost use Rattle.std.specs.Prelude.{◌≡◌, true, ◌||◌, ◌<◌, ◌+◌, eqb, length, drop};
ghost use Rattle.classes.specs.Members.{byte, range, name, lists, next_member, members, read_class, tested, not_sign};
ghost use Rattle.classes.specs.inner.Scan.{step_of, plain_places, PlainTo, scanned};

use crate::members::{Next, next_member};
use bytestrings::letters::{to_lower, to_upper};
use classnames::name_has;

// What the test of a byte against a class that is not broken answers: whether it accepts the byte, and the class's size after its `[`.
#[derive(Clone, Copy, PartialEq, Eq, Debug)]
pub struct Tested {
    pub accepts: bool,
    pub size: usize,
}

// Whether q begins with the sign for "not".
pub fn is_negated(q: &[u8]) -> bool
    ensures { result ≡ not_sign q.now }
{
    matches!(q, [b'!' | b'^', ..])
}

// Whether the byte b is x or y. This and the next two, one function over a test of one byte, would take a closure for `||` alone.
fn byte_lists(b: u8, x: u8, y: u8) -> bool
    ensures { result ≡ lists (byte b) x || lists (byte b) y }
{
    x == b || y == b
}

// Whether the range from a to b lists the byte x; written high to low it still lists a. (`contains` of a range would leave `x == a` beside it.)
fn range_has(a: u8, b: u8, x: u8) -> bool
    ensures { result ≡ lists (range a b) x }
{
    x == a || a <= x && x <= b
}

// Whether the range from a to b lists x or y.
fn range_lists(a: u8, b: u8, x: u8, y: u8) -> bool
    ensures { result ≡ lists (range a b) x || lists (range a b) y }
{
    range_has(a, b, x) || range_has(a, b, y)
}

// Whether the k-th name lists x or y; one test where the two are the same byte.
fn name_lists(k: usize, x: u8, y: u8) -> bool
    ensures { result ≡ lists (name k) x || lists (name k) y }
{
    if name_has(k, x) {
        return true;
    }
    if x == y {
        return false;
    }
    name_has(k, y)
}

// The next member at the i-th byte of q. A `[:` before the place `plain` is known to begin a plain member, with no search for the next `]`.
// (`PlainTo` is said of each step's result anew, so no type can hold it.)
fn next_at(q: &[u8], i: usize, plain: usize) -> Next
    requires { (i < length q.now) × PlainTo q.now (i + 2) (plain + 1) }
    ensures { (step_of result ≡ next_member (eqb i 0) (drop i q.now)) × PlainTo q.now (i + 2) (i + 2 + plain_places result) }
{
    if q[i] == b'[' && i + 2 <= plain && q[i + 1] == b':' {
        return Next::Plain(plain - i - 2);
    }
    next_member(&q[i..], i == 0)
}

// Reads members to the closing `]`: whether one of them lists x or y; none where they are broken. Each turn passes the bytes that it read,
// and `plain` is a place in q, so it counts an index.
fn scan_members(q: &[u8], x: u8, y: u8) -> Option<Tested>
    ensures { result ≡ scanned x y (members q.now 0 true) }
{
    let mut i = 0;
    let mut hit = false;
    let mut plain = 0;
    while i < q.len() {
        match next_at(q, i, plain) {
            Next::Close => {
                return Some(Tested {
                    accepts: hit,
                    size: i + 1,
                });
            }
            Next::Broken => {
                return None;
            }
            Next::Byte(b, n) => {
                hit = hit || byte_lists(b, x, y);
                i += n;
            }
            Next::Range(a, b, n) => {
                hit = hit || range_lists(a, b, x, y);
                i += n;
            }
            Next::Name(k, n) => {
                hit = hit || name_lists(k, x, y);
                i += n;
            }
            Next::Plain(n) => {
                hit = hit || byte_lists(b'[', x, y);
                plain = i + 2 + n;
                i += 1;
            }
        }
    }
    None
}

// The class after its `[`, tested on the byte x; none where it is broken.
pub fn test_class(q: &[u8], x: u8, fold: bool) -> Option<Tested>
    ensures { result ≡ tested fold x (read_class q.now) }
{
    let negated = is_negated(q);
    let from: usize = if negated { 1 } else { 0 };
    let low = if fold { to_lower(x) } else { x };
    let high = if fold { to_upper(x) } else { x };
    let scanned = scan_members(&q[from..], low, high)?;
    Some(Tested {
        accepts: scanned.accepts != negated,
        size: from + scanned.size,
    })
}
