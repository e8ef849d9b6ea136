// The two ASCII forms of a byte, and whether two bytes are the same letter.
ghost use Rattle.std.specs.Prelude.{◌≡◌, eqb};
ghost use Rattle.bytestrings.specs.Letters.{lower, upper, folded};

// A to Z become a to z; any other byte stays.
pub fn to_lower(x: u8) -> u8
    ensures { result ≡ lower x }
{
    x.to_ascii_lowercase()
}

// a to z become A to Z; any other byte stays.
pub fn to_upper(x: u8) -> u8
    ensures { result ≡ upper x }
{
    x.to_ascii_uppercase()
}

// Whether the literal c accepts the byte x.
#[tactic(auto, unfolding(crate::specs::Letters::folded))]
pub fn same_letter(c: u8, x: u8, fold: bool) -> bool
    ensures { result ≡ folded fold (λ y. eqb y c) x }
{
    if fold {
        to_lower(x) == c || to_upper(x) == c
    } else {
        x == c
    }
}
