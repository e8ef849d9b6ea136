// The twelve names of a class, and the bytes that each lists, in one order: the one list that document 01 takes from POSIX.
// For a user: docs/RULES.md, "Bracket classes".
#![tactic(auto)]

ghost use Rattle.std.specs.Prelude.{◌≡◌, false, eqb, MatchOption};
ghost use Rattle.std.specs.List.{position};
ghost use Rattle.classnames.specs.Names.{named, which_name};
ghost use Rattle.classnames.specs.inner.PackedNames.{packed, may_be_name};

// Letters as one number: the first lowest, and a 1 above the last. Numbers are compared faster than arrays and slices.
macro_rules! letters {
    () => {
        1
    };
    ($first:expr $(, $more:expr)*) => {
        letters!($($more),*) * 256 + $first as u64
    };
}

// The names so.
static NAMES: [u64; 12] = [
    letters!(b'a', b'l', b'n', b'u', b'm'),
    letters!(b'a', b'l', b'p', b'h', b'a'),
    letters!(b'b', b'l', b'a', b'n', b'k'),
    letters!(b'c', b'n', b't', b'r', b'l'),
    letters!(b'd', b'i', b'g', b'i', b't'),
    letters!(b'g', b'r', b'a', b'p', b'h'),
    letters!(b'l', b'o', b'w', b'e', b'r'),
    letters!(b'p', b'r', b'i', b'n', b't'),
    letters!(b'p', b'u', b'n', b'c', b't'),
    letters!(b's', b'p', b'a', b'c', b'e'),
    letters!(b'u', b'p', b'p', b'e', b'r'),
    letters!(b'x', b'd', b'i', b'g', b'i', b't'),
];

// Bytes as one number, a bit for each: from `first` to `last` it is `ALL << first & ALL >> (127 - last)`.
const ALL: u128 = u128::MAX;

const DIGITS: u128 = ALL << b'0' & ALL >> (127 - b'9');

const UPPER: u128 = ALL << b'A' & ALL >> (127 - b'Z');

const LOWER: u128 = ALL << b'a' & ALL >> (127 - b'z');

const UPPER_TO_F: u128 = ALL << b'A' & ALL >> (127 - b'F');

const LOWER_TO_F: u128 = ALL << b'a' & ALL >> (127 - b'f');

const PRINTED: u128 = ALL << b' ' & ALL >> (127 - b'~');

const BLANK: u128 = 1 << b' ';

const TAB_TO_CR: u128 = ALL << b'\t' & ALL >> (127 - b'\r');

const DELETE: u128 = 1 << 127;

// The same for all 256 bytes in four words: from 128 on no name lists any.
macro_rules! words {
    ($bytes:expr) => {
        [(($bytes) % (1 << 64)) as u64, (($bytes) >> 64) as u64, 0, 0]
    };
}

// The bytes of each name. A static, so that it is read where it lies: a constant is built anew at each use.
static BYTES: [[u64; 4]; 12] = [
    words!(DIGITS | UPPER | LOWER), // alnum
    words!(UPPER | LOWER), // alpha
    words!(1 << b'\t' | BLANK), // blank
    words!(ALL >> (127 - 31) | DELETE), // cntrl
    words!(DIGITS), // digit
    words!(PRINTED ^ BLANK), // graph
    words!(LOWER), // lower
    words!(PRINTED), // print
    words!(PRINTED ^ (BLANK | DIGITS | UPPER | LOWER)), // punct
    words!(TAB_TO_CR | BLANK), // space
    words!(UPPER), // upper
    words!(DIGITS | UPPER_TO_F | LOWER_TO_F), // xdigit
];

// Whether the k-th name lists the byte x. `k` is any number, since `testcalls_named` asks for any.
pub fn name_has(k: usize, x: u8) -> bool
    ensures { result ≡ named k x }
{
    match BYTES.get(k) {
        Some(words) => (words[x as usize / 64] >> (x % 64)) % 2 == 1,
        None => false,
    }
}

// The letters of five or six bytes as such a number: no name has fewer or more.
fn pack(name: &[u8]) -> Option<u64>
    ensures { MatchOption result (may_be_name name.now ≡ false) (λ number. number ≡ packed name.now) }
{
    match *name {
        [a, b, c, d, e] => Some(u64::from_le_bytes([a, b, c, d, e, 1, 0, 0])),
        [a, b, c, d, e, f] => Some(u64::from_le_bytes([a, b, c, d, e, f, 1, 0])),
        _ => None,
    }
}

// Which of some numbers it is.
fn place_in(numbers: &[u64], number: u64) -> Option<usize>
    ensures { result ≡ position (λ known. eqb known number) numbers.now }
{
    numbers.iter().position(|known| *known == number)
}

// Which of the twelve names it is.
pub fn which_name(name: &[u8]) -> Option<usize>
    ensures { result ≡ which_name name.now }
{
    place_in(&NAMES, pack(name)?)
}
