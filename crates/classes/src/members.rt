// How the members of a class are read, from the left: by index, since slice patterns in `read_single`, `read_bracket` and `next_member` cost a
// class of the longest pattern 1.04 times the instructions (bench/instructions, limits).
ghost use Rattle.std.specs.Prelude.{◌≡◌, ◌<◌, ◌+◌};
ghost use Rattle.classes.specs.Members.{single, until_close, name_at, bracket_at, next_member};
ghost use Rattle.classes.specs.inner.Scan.{step_of, plain_places, PlainTo};

use bytestrings::find_byte;
use classnames::which_name;

// What stands next in a class: its closing `]`, nothing that can be read, or a member: a byte, a range or one of the twelve names, and last
// the number of bytes that it is written with. `Plain(n)`: a `[` that is a plain member though `[:` stands there,
// with n bytes between that and the next `]`. `Broken` is one step of these, as in the definition; an `Option` of a step would wrap the other five.
#[derive(Clone, Copy, PartialEq, Eq, Debug)]
pub enum Next {
    Close,
    Broken,
    Byte(u8, usize),
    Range(u8, u8, usize),
    Name(usize, usize),
    Plain(usize),
}

// The single member b, written with n bytes, or the range that it begins; q stands after it.
fn read_single(b: u8, n: usize, q: &[u8]) -> Next
    requires { n < 3 }
    ensures { (step_of result ≡ single b n q.now) × (plain_places result ≡ 0) }
{
    if q.len() < 2 {
        return Next::Byte(b, n);
    }
    if q[0] != b'-' {
        return Next::Byte(b, n);
    }
    let y = q[1];
    if y == b']' {
        return Next::Byte(b, n);
    }
    if y != b'\\' {
        return Next::Range(b, y, n + 2);
    }
    if q.len() < 3 {
        return Next::Broken;
    }
    let z = q[2];
    Next::Range(b, z, n + 3)
}

// How many bytes stand before the next `]`: all where there is none, as in the definition, which counts the same way.
pub fn until_close(q: &[u8]) -> usize
    ensures { result ≡ until_close q.now }
{
    find_byte(q, 0, b']')
}

// What a `[:` begins; q stands after it.
fn read_name(q: &[u8]) -> Next
    ensures { (step_of result ≡ name_at q.now) × PlainTo q.now 0 (plain_places result) }
{
    let n = until_close(q);
    if q.len() <= n {
        return Next::Broken;
    }
    if n == 0 || q[n - 1] != b':' {
        return Next::Plain(n);
    }
    match which_name(&q[..n - 1]) {
        Some(k) => Next::Name(k, n + 3),
        None => Next::Broken,
    }
}

// What a `[` among the members begins; q stands after it.
fn read_bracket(q: &[u8]) -> Next
    ensures { (step_of result ≡ bracket_at q.now) × PlainTo q.now 1 (1 + plain_places result) }
{
    if q.len() == 0 {
        return Next::Byte(b'[', 1);
    }
    if q[0] == b':' {
        return read_name(&q[1..]);
    }
    read_single(b'[', 1, q)
}

// The next member of q, or the closing `]`. `first`: no member was read yet.
pub fn next_member(q: &[u8], first: bool) -> Next
    ensures { (step_of result ≡ next_member first q.now) × PlainTo q.now 2 (2 + plain_places result) }
{
    if q.len() == 0 {
        return Next::Broken;
    }
    let x = q[0];
    if x == b']' {
        if !first {
            return Next::Close;
        }
    }
    if x == b'\\' {
        if q.len() < 2 {
            return Next::Broken;
        }
        return read_single(q[1], 2, &q[2..]);
    }
    if x == b'[' {
        return read_bracket(&q[1..]);
    }
    read_single(x, 1, &q[1..])
}
