// Where a pattern is broken: its items are read, of which only the sizes matter (sizes.rt), and no byte is tested. The place does not depend on a text
// or a mode, so it is asked of the pattern alone. For a user: docs/RULES.md, "Patterns".
#![tactic(auto)]

ghost use Rattle.std.specs.Prelude.{◌≡◌, true, ◌<◌, length, get_or};
ghost use Rattle.brokenplaces.specs.BrokenPlaces.{broken_at};
ghost use Rattle.brokenplaces.specs.inner.ItemSizes.{may_break, first_size};

mod sizes;

pub use sizes::class_size;

// Whether an item that begins with c may be broken: an escape or a class.
fn may_break(c: u8) -> bool
    ensures { result ≡ may_break c }
{
    c == b'\\' || c == b'['
}

// How many bytes the first item of p, an escape or a class, is written with; none where it is broken. By index: a slice pattern costs a pattern of
// escapes 1.12 times the instructions (bench/instructions, broken).
fn item_size(p: &[u8]) -> Option<usize>
    requires { (0 < length p.now) × (may_break (get_or p.now 0 0) ≡ true) }
    ensures { result ≡ first_size p.now }
{
    if p[0] == b'\\' {
        return if p.len() < 2 { None } else { Some(2) };
    }
    let size = class_size(&p[1..])?;
    Some(size + 1)
}

// Where any bytes, read as a pattern, are broken: the place, counted from 0, of the first item that is. Of items that cannot be broken one byte
// is passed at a time, of a run a star; each turn passes the bytes that it read, so it counts an index.
pub fn broken_at(pattern: &[u8]) -> Option<usize>
    ensures { result ≡ broken_at pattern.now }
{
    let mut i = 0;
    while i < pattern.len() {
        if may_break(pattern[i]) {
            let Some(n) = item_size(&pattern[i..]) else {
                return Some(i);
            };
            i += n;
        } else {
            i += 1;
        }
    }
    None
}
