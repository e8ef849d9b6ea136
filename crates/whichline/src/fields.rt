// The fields of an answer. A field is written as it is, unless it holds a control byte, as a tab, or begins with `"`: then it is
// quoted as C and git do, so that an answer is always one line and its fields stay apart.
ghost use Rattle.std.specs.Prelude.{◌≡◌, length};
ghost use Rattle.whichline.specs.Places.{after, Onward, AfterNumber, control, is_text, letter_of, after_quoted, plain, after_field};

use std::marker::Model;

// Where an answer or a message is put: a buffer that is filled from its front.
#[derive(Drop)]
pub struct Out<'a> {
    bytes: &'a mut [u8],
    at: usize,
}

impl<'a> Model for Out<'a> {
    ghost use Rattle.std.specs.Prelude.{◌≤◌, length};
    ghost use Rattle.whichline.specs.Filled.{Filled};

    ghost Value = { Filled };

    ghost view = { λ out. record { room = length out.bytes.now; at = out.at } };

    ghost invariant = { λ out. out.at ≤ length out.bytes.now };
}

#[tactic(auto, using(crate::proofs::PlaceLaws::control_is))]
fn is_control(b: u8) -> bool
    ensures { result ≡ control b }
{
    b.is_ascii_control()
}

#[tactic(auto, using(crate::proofs::PlaceLaws::none_control))]
fn is_text(s: &[u8]) -> bool
    ensures { result ≡ is_text s.now }
{
    !s.iter().any(|b| is_control(*b))
}

// Whether a field is written as it is.
#[tactic(auto, unfolding(crate::specs::Places::plain))]
fn is_plain(s: &[u8]) -> bool
    ensures { result ≡ plain s.now }
{
    match s {
        [b'"', ..] => false,
        _ => is_text(s),
    }
}

// The letter that stands for a byte after a `\`.
#[tactic(auto, unfolding(crate::specs::Places::letter_of))]
fn letter(b: u8) -> Option<u8>
    ensures { result ≡ letter_of b }
{
    match b {
        7 => Some(b'a'),
        8 => Some(b'b'),
        9 => Some(b't'),
        10 => Some(b'n'),
        11 => Some(b'v'),
        12 => Some(b'f'),
        13 => Some(b'r'),
        b'"' | b'\\' => Some(b),
        _ => None,
    }
}

impl<'a> Out<'a> {
    pub fn new(bytes: &'a mut [u8]) -> Out<'a>
        ensures { result ≡ record { room = length bytes.old; at = 0 } }
    {
        Out { bytes, at: 0 }
    }

    // What is filled.
    pub fn filled(&self) -> &[u8]
        ensures { length result.now ≡ self.now.at }
    {
        &self.bytes[..self.at]
    }

    // What was put is done with.
    pub fn clear(&mut self)
        ensures { self.new ≡ record { room = self.old.room; at = 0 } }
    {
        self.at = 0;
    }

    // Puts bytes. The caller leaves room: without it nothing is put.
    #[tactic(auto, using(crate::proofs::PlaceLaws::after_fits, crate::proofs::PlaceLaws::after_full))]
    pub fn put(&mut self, s: &[u8])
        ensures value { self.new ≡ after self.old (length s.now) }
        ensures onward { Onward self.old self.new }
    {
        if s.len() <= self.bytes.len() - self.at {
            let end = self.at + s.len();
            self.bytes[self.at..end].copy_from_slice(s);
            self.at = end;
        }
    }

    pub fn put_number(&mut self, n: u64)
        ensures after_number { AfterNumber self.old n self.new }
        ensures onward { Onward self.old self.new }
    {
        let mut digits = [0u8; 20];
        let k = io::decimal(n, &mut digits);
        self.put(&digits[..k]);
    }

    // Puts a byte as it stands between quotes: a letter after a `\`, three octal digits after it, or itself.
    #[tactic(auto, using(crate::proofs::PlaceLaws::quoted_letter, crate::proofs::PlaceLaws::quoted_digits, crate::proofs::PlaceLaws::quoted_itself))]
    fn put_quoted(&mut self, b: u8)
        ensures value { self.new ≡ after_quoted self.old b }
        ensures onward { Onward self.old self.new }
    {
        if let Some(l) = letter(b) {
            self.put(b"\\");
            self.put(&[l]);
        } else if is_control(b) {
            self.put(&[b'\\', b'0' + b / 64, b'0' + b / 8 % 8, b'0' + b % 8]);
        } else {
            self.put(&[b]);
        }
    }

    // Puts a field.
    #[tactic(auto, using(crate::proofs::PlaceLaws::field_plain, crate::proofs::PlaceLaws::field_quoted))]
    pub fn put_field(&mut self, s: &[u8])
        ensures value { self.new ≡ after_field self.old s.now }
        ensures onward { Onward self.old self.new }
    {
        if is_plain(s) {
            self.put(s);
            return;
        }
        self.put(b"\"");
        for &b in s {
            self.put_quoted(b);
        }
        self.put(b"\"");
    }
}
