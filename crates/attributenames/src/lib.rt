// Which names an attribute may have: refusal 6 asks it of the name asked for, and attribute lines, without the 255, of each name on them.
// For a user: docs/RULES.md, "Attribute lines" and "Limits and refusals".
#![tactic(auto)]

ghost use Rattle.std.specs.Prelude.{◌≡◌, ◌↔◌, true};
ghost use Rattle.std.specs.List.{list_all};
ghost use Rattle.attributenames.specs.Names.{name_byte, good_name, BadName};

const NAME_LIMIT: usize = 255;

// Whether a byte may stand in a name: a letter, small or capital, a digit or one of three more. Most are small letters, which are tested apart: in one
// pattern each byte was looked up, and a long name took x1.8.
#[tactic(auto, unfolding(crate::specs::Names::name_byte))]
fn name_byte(b: u8) -> bool
    ensures { result ≡ name_byte b }
{
    matches!(b, b'a'..=b'z') || matches!(b, b'A'..=b'Z' | b'0'..=b'9' | b'-' | b'.' | b'_')
}

// Whether each byte may.
fn name_bytes(bytes: &[u8]) -> bool
    ensures { result ≡ list_all name_byte bytes.now }
{
    bytes.iter().all(|b| name_byte(*b))
}

// Whether a name is good, however long.
#[tactic(auto, using(crate::proofs::NameLaws::all_may))]
pub fn name_good(name: &[u8]) -> bool
    ensures { result ≡ good_name name.now }
{
    match name {
        [] | [b'-', ..] => false,
        _ => name_bytes(name),
    }
}

// Whether the name asked for is refused.
#[tactic(auto, using(crate::proofs::NameLaws::name_long, crate::proofs::NameLaws::name_bad))]
pub fn name_bad(name: &[u8]) -> bool
    ensures { (result ≡ true) ↔ BadName name.now }
{
    NAME_LIMIT < name.len() || !name_good(name)
}
