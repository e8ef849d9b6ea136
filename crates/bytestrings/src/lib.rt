// What several crates need of bytes and none owns: whether two slices are the same, where a byte stands, the two cases of a letter (letters.rt).
// The lowest crate: its laws on lists, slices and tests stand once, here, for all others.
// For a user: docs/RULES.md, "Folding case".
#![tactic(auto)]

ghost use Rattle.std.specs.Prelude.{◌≡◌, ◌+◌, eqb, drop, position};
ghost use Rattle.bytestrings.specs.Bytes.{same_bytes, length_until};

pub mod anybyte;
pub mod letters;

// Whether the two are the same bytes.
#[tactic(auto, using(crate::proofs::SameLaws::pointwise_same))]
pub fn same_bytes(a: &[u8], b: &[u8]) -> bool
    ensures { result ≡ same_bytes a.now b.now }
{
    a == b
}

// The place of the first b, if there is one.
pub fn first_place(bytes: &[u8], b: u8) -> Option<usize>
    ensures { result ≡ position (λ x. eqb x b) bytes.now }
{
    bytes.iter().position(|x| *x == b)
}

// The place of the next byte b from `at` on, or the end; past the end, `at` itself.
#[tactic(auto, using(crate::proofs::UntilLaws::until_past, crate::proofs::UntilLaws::place_found, crate::proofs::UntilLaws::place_none))]
pub fn find_byte(bytes: &[u8], at: usize, b: u8) -> usize
    ensures { result ≡ at + length_until (λ x. eqb x b) (drop at bytes.now) }
{
    if bytes.len() <= at {
        return at;
    }
    match first_place(&bytes[at..], b) {
        Some(n) => at + n,
        None => bytes.len(),
    }
}
