// What the matcher refuses, 7 to 9, and what all calls share of refusing: the limits, byte 0, the flags, and "the lowest is answered". Refusal 1 stands in
// paths, 6 in attributenames, 2, 3, 5 and the questions' lowest in questionrefusals. For a user: docs/RULES.md, "Limits and refusals".
#![tactic(auto)]

ghost use Rattle.std.specs.Prelude.{◌≡◌, ◌↔◌, true, eqb};
ghost use Rattle.refusals.specs.Refusals.{TooLong, HoldsZero};

pub mod flags;
mod refusal;

use bytestrings::anybyte::{ByteTest, any_byte};
pub use refusal::Refusal;

const PATTERN_LIMIT: usize = 2048;

const TEXT_LIMIT: usize = 4096;

// Whether the pattern or the text is over its limit.
pub fn too_long(pattern: &[u8], text: &[u8]) -> bool
    ensures { (result ≡ true) ↔ TooLong pattern.now text.now }
{
    PATTERN_LIMIT < pattern.len() || TEXT_LIMIT < text.len()
}

// The test for byte 0.
struct Zero;

impl ByteTest for Zero {
    ghost holds = { λ b. eqb b 0 };

    fn test(b: u8) -> bool {
        b == 0
    }
}

// Whether byte 0 is among the bytes.
#[tactic(auto, using(bytestrings::proofs::AnyLaws::byte_found))]
pub fn holds_zero(bytes: &[u8]) -> bool
    ensures { (result ≡ true) ↔ HoldsZero bytes.now }
{
    any_byte::<Zero>(bytes)
}
