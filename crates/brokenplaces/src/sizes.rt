// How many bytes a class is written with: its members are read up to its `]`, and no byte is tested. What classes' members.rt reads is read here for
// its size alone: one function of both would have what becomes of a member as a parameter, at each of eleven results, and be no plainer.
ghost use Rattle.std.specs.Prelude.{◌≡◌, true, false, ℕ, ◌≤◌, ◌<◌, ◌+◌, length, drop};
ghost use Rattle.classes.specs.Members.{single, until_close, name_at, next_member, members, read_class};
ghost use Rattle.brokenplaces.specs.inner.ClassSizes.{Sized, members_size, starts_name, NextClose};
ghost use Rattle.brokenplaces.specs.Sizes.{class_size};

use bytestrings::find_byte;
use classes::class::is_negated;
use classnames::which_name;

// The single member of n bytes, whichever byte it is, with the range that it may begin; q stands after it. None where the range's end is
// missing. By index: with slice patterns here and in `plain_size`, unclosed classes cost 1.2 times the instructions (bench/instructions, broken).
fn single_size(n: usize, q: &[u8]) -> Option<usize>
    requires { n < 3 }
    ensures { (b : ℕ) → Sized result (single b n q.now) }
{
    if q.len() < 2 || q[0] != b'-' || q[1] == b']' {
        return Some(n);
    }
    if q[1] != b'\\' {
        return Some(n + 2);
    }
    if q.len() < 3 { None } else { Some(n + 3) }
}

// The next member of q where no `[:` begins it; none where it is broken. A `]` is a member here.
fn plain_size(q: &[u8]) -> Option<usize>
    requires { (0 < length q.now) × (starts_name q.now ≡ false) }
    ensures { Sized result (next_member true q.now) }
{
    if q[0] != b'\\' {
        return single_size(1, &q[1..]);
    }
    if q.len() < 2 {
        return None;
    }
    single_size(2, &q[2..])
}

// Whether q begins with `[:`.
fn starts_name(q: &[u8]) -> bool
    ensures { result ≡ starts_name q.now }
{
    matches!(q, [b'[', b':', ..])
}

// The place of the next `]` from the place `from` on; the end where there is none, as in the definition. `known` is it, unless it lies before `from`.
fn next_close(q: &[u8], from: usize, known: usize) -> usize
    requires { (from ≤ length q.now) × NextClose q.now from known }
    ensures { result ≡ from + until_close (drop from q.now) }
{
    if from <= known {
        return known;
    }
    from + find_byte(&q[from..], 0, b']')
}

// What a `[:` begins, with n bytes before the next `]`; q stands after it. None where it is broken.
fn name_size(q: &[u8], n: usize) -> Option<usize>
    requires { n ≡ until_close q.now }
    ensures { Sized result (name_at q.now) }
{
    if q.len() <= n {
        return None;
    }
    if n == 0 || q[n - 1] != b':' {
        return Some(1);
    }
    which_name(&q[..n - 1])?;
    Some(n + 3)
}

// All members up to the closing `]`, which counts; none where one of them is broken or no `]` closes. The place of the next `]` is kept,
// so that it is searched once for all the `[:` before it. Each turn passes the bytes that it read, so it counts an index.
pub fn members_size(q: &[u8]) -> Option<usize>
    ensures { result ≡ members_size (members q.now 0 true) }
{
    let mut i = 0;
    let mut close = 0;
    while i < q.len() {
        if q[i] == b']' && i != 0 {
            return Some(i + 1);
        }
        if starts_name(&q[i..]) {
            close = next_close(q, i + 2, close);
            let n = name_size(&q[i + 2..], close - i - 2)?;
            i += n;
        } else {
            let n = plain_size(&q[i..])?;
            i += n;
        }
    }
    None
}

// How many bytes the class is written with after its `[`, its `]` included; none where it is broken.
pub fn class_size(q: &[u8]) -> Option<usize>
    ensures { result ≡ class_size (read_class q.now) }
{
    let from: usize = if is_negated(q) { 1 } else { 0 };
    let n = members_size(&q[from..])?;
    Some(from + n)
}
